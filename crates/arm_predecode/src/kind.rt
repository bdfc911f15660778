//! The kinds of words: how each is carried out.

/// How a word is carried out. The registers that its parts name are R0 to R14, in all kinds but
/// `Slow`, `Conditional` and `Interrupt`.
#[derive(Clone, Copy)]
pub enum OpKind {
    /// By its fields, as any word can be.
    Slow,
    /// A word with a condition, which may hold or not.
    Conditional,
    /// SWI.
    Interrupt,
    /// B.
    Branch,
    /// BL.
    Link,
    /// BEQ.
    BranchIfEqual,
    /// BNE.
    BranchIfNotEqual,
    /// BCS.
    BranchIfCarrySet,
    /// BCC.
    BranchIfCarryClear,
    /// BMI.
    BranchIfMinus,
    /// BPL.
    BranchIfPlus,
    /// BVS.
    BranchIfOverflowSet,
    /// BVC.
    BranchIfOverflowClear,
    /// BHI.
    BranchIfHigher,
    /// BLS.
    BranchIfLowerOrSame,
    /// BGE.
    BranchIfGreaterOrEqual,
    /// BLT.
    BranchIfLessThan,
    /// BGT.
    BranchIfGreaterThan,
    /// BLE.
    BranchIfLessOrEqual,
    /// MOV PC,Rm.
    MoveToPc,
    /// MOVS PC,Rm.
    MoveToPcS,
    /// MUL Rd,Rm,Rs.
    Multiply,
    /// MLA Rd,Rm,Rs,Rn.
    MultiplyAdd,
    /// AND Rd,Rn,#n.
    ImmediateAnd,
    /// ANDS Rd,Rn,#n.
    ImmediateAndS,
    /// EOR Rd,Rn,#n.
    ImmediateExclusiveOr,
    /// EORS Rd,Rn,#n.
    ImmediateExclusiveOrS,
    /// SUB Rd,Rn,#n.
    ImmediateSubtract,
    /// SUBS Rd,Rn,#n.
    ImmediateSubtractS,
    /// RSB Rd,Rn,#n.
    ImmediateReverseSubtract,
    /// RSBS Rd,Rn,#n.
    ImmediateReverseSubtractS,
    /// ADD Rd,Rn,#n.
    ImmediateAdd,
    /// ADDS Rd,Rn,#n.
    ImmediateAddS,
    /// ADC Rd,Rn,#n.
    ImmediateAddWithCarry,
    /// ADCS Rd,Rn,#n.
    ImmediateAddWithCarryS,
    /// SBC Rd,Rn,#n.
    ImmediateSubtractWithCarry,
    /// SBCS Rd,Rn,#n.
    ImmediateSubtractWithCarryS,
    /// RSC Rd,Rn,#n.
    ImmediateReverseSubtractWithCarry,
    /// RSCS Rd,Rn,#n.
    ImmediateReverseSubtractWithCarryS,
    /// TST Rn,#n.
    ImmediateTestS,
    /// TEQ Rn,#n.
    ImmediateTestEquivalenceS,
    /// CMP Rn,#n.
    ImmediateCompareS,
    /// CMN Rn,#n.
    ImmediateCompareNegatedS,
    /// ORR Rd,Rn,#n.
    ImmediateOr,
    /// ORRS Rd,Rn,#n.
    ImmediateOrS,
    /// MOV Rd,#n.
    ImmediateMove,
    /// MOVS Rd,#n.
    ImmediateMoveS,
    /// BIC Rd,Rn,#n.
    ImmediateBitClear,
    /// BICS Rd,Rn,#n.
    ImmediateBitClearS,
    /// MVN Rd,#n.
    ImmediateMoveNot,
    /// MVNS Rd,#n.
    ImmediateMoveNotS,
    /// AND Rd,Rn,Rm.
    RegisterAnd,
    /// ANDS Rd,Rn,Rm.
    RegisterAndS,
    /// EOR Rd,Rn,Rm.
    RegisterExclusiveOr,
    /// EORS Rd,Rn,Rm.
    RegisterExclusiveOrS,
    /// SUB Rd,Rn,Rm.
    RegisterSubtract,
    /// SUBS Rd,Rn,Rm.
    RegisterSubtractS,
    /// RSB Rd,Rn,Rm.
    RegisterReverseSubtract,
    /// RSBS Rd,Rn,Rm.
    RegisterReverseSubtractS,
    /// ADD Rd,Rn,Rm.
    RegisterAdd,
    /// ADDS Rd,Rn,Rm.
    RegisterAddS,
    /// ADC Rd,Rn,Rm.
    RegisterAddWithCarry,
    /// ADCS Rd,Rn,Rm.
    RegisterAddWithCarryS,
    /// SBC Rd,Rn,Rm.
    RegisterSubtractWithCarry,
    /// SBCS Rd,Rn,Rm.
    RegisterSubtractWithCarryS,
    /// RSC Rd,Rn,Rm.
    RegisterReverseSubtractWithCarry,
    /// RSCS Rd,Rn,Rm.
    RegisterReverseSubtractWithCarryS,
    /// TST Rn,Rm.
    RegisterTestS,
    /// TEQ Rn,Rm.
    RegisterTestEquivalenceS,
    /// CMP Rn,Rm.
    RegisterCompareS,
    /// CMN Rn,Rm.
    RegisterCompareNegatedS,
    /// ORR Rd,Rn,Rm.
    RegisterOr,
    /// ORRS Rd,Rn,Rm.
    RegisterOrS,
    /// MOV Rd,Rm.
    RegisterMove,
    /// MOVS Rd,Rm.
    RegisterMoveS,
    /// BIC Rd,Rn,Rm.
    RegisterBitClear,
    /// BICS Rd,Rn,Rm.
    RegisterBitClearS,
    /// MVN Rd,Rm.
    RegisterMoveNot,
    /// MVNS Rd,Rm.
    RegisterMoveNotS,
    /// AND Rd,Rn,Rm shifted by 1 to 31.
    ShiftedAnd,
    /// ANDS Rd,Rn,Rm shifted by 1 to 31.
    ShiftedAndS,
    /// EOR Rd,Rn,Rm shifted by 1 to 31.
    ShiftedExclusiveOr,
    /// EORS Rd,Rn,Rm shifted by 1 to 31.
    ShiftedExclusiveOrS,
    /// SUB Rd,Rn,Rm shifted by 1 to 31.
    ShiftedSubtract,
    /// SUBS Rd,Rn,Rm shifted by 1 to 31.
    ShiftedSubtractS,
    /// RSB Rd,Rn,Rm shifted by 1 to 31.
    ShiftedReverseSubtract,
    /// RSBS Rd,Rn,Rm shifted by 1 to 31.
    ShiftedReverseSubtractS,
    /// ADD Rd,Rn,Rm shifted by 1 to 31.
    ShiftedAdd,
    /// ADDS Rd,Rn,Rm shifted by 1 to 31.
    ShiftedAddS,
    /// ADC Rd,Rn,Rm shifted by 1 to 31.
    ShiftedAddWithCarry,
    /// ADCS Rd,Rn,Rm shifted by 1 to 31.
    ShiftedAddWithCarryS,
    /// SBC Rd,Rn,Rm shifted by 1 to 31.
    ShiftedSubtractWithCarry,
    /// SBCS Rd,Rn,Rm shifted by 1 to 31.
    ShiftedSubtractWithCarryS,
    /// RSC Rd,Rn,Rm shifted by 1 to 31.
    ShiftedReverseSubtractWithCarry,
    /// RSCS Rd,Rn,Rm shifted by 1 to 31.
    ShiftedReverseSubtractWithCarryS,
    /// TST Rn,Rm shifted by 1 to 31.
    ShiftedTestS,
    /// TEQ Rn,Rm shifted by 1 to 31.
    ShiftedTestEquivalenceS,
    /// CMP Rn,Rm shifted by 1 to 31.
    ShiftedCompareS,
    /// CMN Rn,Rm shifted by 1 to 31.
    ShiftedCompareNegatedS,
    /// ORR Rd,Rn,Rm shifted by 1 to 31.
    ShiftedOr,
    /// ORRS Rd,Rn,Rm shifted by 1 to 31.
    ShiftedOrS,
    /// MOV Rd,Rm shifted by 1 to 31.
    ShiftedMove,
    /// MOVS Rd,Rm shifted by 1 to 31.
    ShiftedMoveS,
    /// BIC Rd,Rn,Rm shifted by 1 to 31.
    ShiftedBitClear,
    /// BICS Rd,Rn,Rm shifted by 1 to 31.
    ShiftedBitClearS,
    /// MVN Rd,Rm shifted by 1 to 31.
    ShiftedMoveNot,
    /// MVNS Rd,Rm shifted by 1 to 31.
    ShiftedMoveNotS,
    /// STR Rd,[Rn,#n].
    StoreWordPreBy,
    /// STRB Rd,[Rn,#n].
    StoreBytePreBy,
    /// LDR Rd,[Rn,#n].
    LoadWordPreBy,
    /// LDRB Rd,[Rn,#n].
    LoadBytePreBy,
    /// STR Rd,[Rn,#n]!.
    StoreWordPreBackBy,
    /// STRB Rd,[Rn,#n]!.
    StoreBytePreBackBy,
    /// LDR Rd,[Rn,#n]!.
    LoadWordPreBackBy,
    /// LDRB Rd,[Rn,#n]!.
    LoadBytePreBackBy,
    /// STR Rd,[Rn],#n.
    StoreWordPostBy,
    /// STRB Rd,[Rn],#n.
    StoreBytePostBy,
    /// LDR Rd,[Rn],#n.
    LoadWordPostBy,
    /// LDRB Rd,[Rn],#n.
    LoadBytePostBy,
    /// STR Rd,[Rn,Rm,LSL #n].
    StoreWordPreByRegister,
    /// STRB Rd,[Rn,Rm,LSL #n].
    StoreBytePreByRegister,
    /// LDR Rd,[Rn,Rm,LSL #n].
    LoadWordPreByRegister,
    /// LDRB Rd,[Rn,Rm,LSL #n].
    LoadBytePreByRegister,
    /// STR Rd,[Rn,Rm,LSL #n]!.
    StoreWordPreBackByRegister,
    /// STRB Rd,[Rn,Rm,LSL #n]!.
    StoreBytePreBackByRegister,
    /// LDR Rd,[Rn,Rm,LSL #n]!.
    LoadWordPreBackByRegister,
    /// LDRB Rd,[Rn,Rm,LSL #n]!.
    LoadBytePreBackByRegister,
    /// STR Rd,[Rn],Rm,LSL #n.
    StoreWordPostByRegister,
    /// STRB Rd,[Rn],Rm,LSL #n.
    StoreBytePostByRegister,
    /// LDR Rd,[Rn],Rm,LSL #n.
    LoadWordPostByRegister,
    /// LDRB Rd,[Rn],Rm,LSL #n.
    LoadBytePostByRegister,
    /// LDR Rd,[PC,#n].
    LoadBeside,
    /// STMDA or STMDB Rn,{..}.
    StoreDown,
    /// STMDA or STMDB Rn!,{..}.
    StoreDownBack,
    /// STMIA or STMIB Rn,{..}.
    StoreUp,
    /// STMIA or STMIB Rn!,{..}.
    StoreUpBack,
    /// LDMDA or LDMDB Rn,{..}.
    LoadDown,
    /// LDMDA or LDMDB Rn!,{..}.
    LoadDownBack,
    /// LDMIA or LDMIB Rn,{..}.
    LoadUp,
    /// LDMIA or LDMIB Rn!,{..}.
    LoadUpBack,
    /// LDMIA or LDMIB Rn,{..,PC}.
    LoadUpWithPc,
    /// LDMIA or LDMIB Rn!,{..,PC}.
    LoadUpBackWithPc,
}
