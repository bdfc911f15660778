//! Laws of plans: they settle what becomes of a new image, and their actions find what they ask
//! for. Each is the contract of a function that does nothing.

ghost use Rattle.instances.specs.actions.Laws.{ClearSettles, InstantiateSettles, LoadSettles, NoneSlides, PendingIsSettled, PendingOutlastsRefusal, PendingStays, ReinitSettles, StaysSettled, StaysSettledRefused, TidySettles};
ghost use Rattle.instances.specs.actions.Ready.{AllGo, ClearIsReady, InstantiateIsReady, LoadIsReady, ReadyActs, ReinitIsReady, StaysReady, StaysReadyRefused, TidyIsReady};

/// Each call's plan settles once what becomes of a new image, whatever module code answers.
pub fn plans_settle_their_image()
    ensures load { LoadSettles }
    ensures clear { ClearSettles }
    ensures reinit { ReinitSettles }
    ensures instantiate { InstantiateSettles }
    ensures tidy { TidySettles }
{}

/// And so it stays, as the plan is carried on; the image is pending until it is settled.
pub fn plans_go_on_settling()
    ensures well { StaysSettled }
    ensures refused { StaysSettledRefused }
    ensures pending { PendingStays }
    ensures settled { PendingIsSettled }
    ensures outlasts { PendingOutlastsRefusal }
    ensures slides { NoneSlides }
{}

/// Each action of a plan that is ready finds what it asks for when its turn comes, whatever module
/// code answers.
pub fn plans_stay_ready()
    ensures acts { ReadyActs }
    ensures well { StaysReady }
    ensures refused { StaysReadyRefused }
{}

/// Each call's plan is ready when it is made.
pub fn plans_begin_ready()
    ensures load { LoadIsReady }
    ensures clear { ClearIsReady }
    ensures reinit { ReinitIsReady }
    ensures instantiate { InstantiateIsReady }
    ensures tidy { TidyIsReady }
    ensures all { AllGo }
{}
