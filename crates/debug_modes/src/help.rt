//! What HELP is answered.

/// The language's lines, a page of a terminal.
pub const HELP: &[u8] = b"lines of a script:
  ASM name origin .. END, HEX name .. END    an image from text or digits
  BOOT name, RUN, STEP n, BREAK a, UNBREAK a
  CALL n, LOAD text                          a store call, a module
  REGS, MEM a n, CODE a n, HEAP a, AREAS, MODULES, FLEX
  SET Rn v, POKE a v
lines of a debugging script:
  ; text, # text                             a comment, a heading
  WORDS a n, STACK n, BANKS, WHERE           words, the stack, the banks, the PC
  FRAMES, LABELS, COMMANDS                   open calls of module code; labels; modules' commands
  LISTING name                               the lines of an image's block, with what they made
  DUMP a n, WHY                              bytes and characters; the error that R0 leads to
  WHY ON, WHY OFF                            what WHY shows below each answer error n
  SET PC a, SET PSR Nz SVC                   letters left out stay
  SET SP v, SET LR v, SET R0 -1, CALL OS_Heap  names of registers and of SWIs
  POKE a \"text\", POKE a BYTES v ..           bytes to any address
  FILL a n v, FIND a n v                     n bytes written; where a value or a text stands
  RESET                                      a fresh machine; images, labels, breaks, modes stay
  BACK, BACK n, BACK TO n, BACK UNTIL a      the machine as it was, n steps before, at a step
  UNDO, WHEN                                 as before the last line; how many steps were taken
  LAST CHANGE x                              x is a, WORD a, BYTE a, BLOCK a, R0, R13_svc, FLAGS
  LAST CLAIM a, LAST FREE a                  what made the block round a, or took it away
  LAST STEPS n                               the last n steps, as TRACE shows them
  FORGET name, REPEAT n line                 an image goes; a line, n times
  INCLUDE file                               the lines of a file, in its place
  SAVE name file, SAVE a n file              an image, or bytes of memory, to a file
  TRACE line, TRACE n, TRACE ON, TRACE OFF   steps shown one by one; TRACE LIMIT n of a line
  STEP                                       STEP 1
  TRACE LAST n                               RUN, of which the last n steps are shown
  FINISH, GOSUB a                            until a frame has gone back; a routine called
  COMMAND name tail, SERVICE n Title         code of loaded modules is entered
  PUT name a, COMPARE name other             an image's bytes to an address; where two images differ
  STUB n R0 v .., UNSTUB n                   a SWI that the machine doesn't have
  WATCH a, UNWATCH a                         a run ends where the word changes
  COUNT ON, COUNT OFF, COUNTS name           how often the steps of an image were taken
  label, image:label+4, R1, PC-4             in place of an address, or behind SET x, EXPECT x
  EXPECT R0 v, R13_svc v, PC v, FLAGS Zc     what should be so, or the script fails
  EXPECT WORD a v, BYTE a v, STEPS n, STEPS <= n
  EXPECT ANSWER text, LINE text, ERROR n, OUTPUT \"text\"
  HELP, HELP STEP, HELP Title, QUIT          these lines; what a line needs; what a module says
";
