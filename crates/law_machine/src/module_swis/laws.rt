//! Laws of SWIs of modules, each the contract of a function that does nothing.

ghost use Rattle.law_machine.specs.module_swis.Swis.{SwisEnterPreferred, SwisGoBack, SwiStepsEnterPreferred};

/// A SWI of a module opens a frame that names the preferred instance of the oldest module which
/// handles its number, and R12 has the address of that instance's private word. The frame keeps the
/// caller's status, and where the caller goes on.
pub fn frames_name_the_preferred()
    ensures calls { SwisEnterPreferred }
    ensures steps { SwiStepsEnterPreferred }
{}

/// When the code of a SWI comes back with V clear, its frame is closed, R14 of supervisor mode has
/// the caller's status and the address at which it goes on, and the guest goes on there.
pub fn swis_go_back()
    ensures { SwisGoBack }
{}
