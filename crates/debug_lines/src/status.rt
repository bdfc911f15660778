//! Flags and modes by their letters, as PSR shows them.

ghost use Rattle.std.specs.Prelude.{◌≡◌, None, Some, if◌then◌else◌};
ghost use Rattle.debug_lines.specs.Status.{any_status, flag_shown_once, with_letter, with_letters, status_of_letters, mode_named, status_of_two, status_of_word};

use crate::few_words::has_letters;
use arm_core::Mode;

/// Of a processor status the flags and the mode that a line shows; `None` where it doesn't.
#[derive(Clone, Copy)]
pub struct StatusPattern {
    /// N, bit 31.
    pub negative: Option<bool>,
    /// Z, bit 30.
    pub zero: Option<bool>,
    /// C, bit 29.
    pub carry: Option<bool>,
    /// V, bit 28.
    pub overflow: Option<bool>,
    /// I, bit 27.
    pub interrupts_off: Option<bool>,
    /// F, bit 26.
    pub fast_interrupts_off: Option<bool>,
    /// Bits 1 and 0.
    pub mode: Option<Mode>,
}

impl StatusPattern {
    // The pattern that shows nothing.
    fn any() -> StatusPattern
        ensures { result ≡ any_status }
    {
        StatusPattern {
            negative: None,
            zero: None,
            carry: None,
            overflow: None,
            interrupts_off: None,
            fast_interrupts_off: None,
            mode: None,
        }
    }

    // The pattern of a word of letters, of each flag one at most.
    #[tactic(auto, unfolding(crate::specs::Status::status_of_letters))]
    fn of_letters(letters: &[u8]) -> Option<StatusPattern>
        ensures { result ≡ status_of_letters letters.now }
    {
        if letters.is_empty() {
            return None;
        }
        let mut pattern = StatusPattern::any();
        for letter in letters {
            pattern = pattern.with_letter(*letter)?;
        }
        Some(pattern)
    }

    // The pattern that shows one flag more.
    fn with_letter(mut self, letter: u8) -> Option<StatusPattern>
        ensures { result ≡ with_letter self letter }
    {
        let is_set = letter.is_ascii_uppercase();
        let shown = match letter {
            b'N' | b'n' => show_once(&mut self.negative, is_set),
            b'Z' | b'z' => show_once(&mut self.zero, is_set),
            b'C' | b'c' => show_once(&mut self.carry, is_set),
            b'V' | b'v' => show_once(&mut self.overflow, is_set),
            b'I' | b'i' => show_once(&mut self.interrupts_off, is_set),
            b'F' | b'f' => show_once(&mut self.fast_interrupts_off, is_set),
            _ => false,
        };
        if shown { Some(self) } else { None }
    }

    // The pattern of letters and a mode.
    pub(crate) fn of_two(letters: &[u8], mode: &[u8]) -> Option<StatusPattern>
        ensures { result ≡ status_of_two letters.now mode.now }
    {
        let pattern = StatusPattern::of_letters(letters)?;
        let mode = mode_named(mode)?;
        Some(StatusPattern {
            mode: Some(mode),
            ..pattern
        })
    }

    // The pattern of a mode, or of letters.
    pub(crate) fn of_word(word: &[u8]) -> Option<StatusPattern>
        ensures { result ≡ status_of_word word.now }
    {
        match mode_named(word) {
            Some(mode) => Some(StatusPattern {
                mode: Some(mode),
                ..StatusPattern::any()
            }),
            None => StatusPattern::of_letters(word),
        }
    }
}

// Shows a flag, where no letter before has, and says whether it does.
fn show_once(flag: &mut Option<bool>, is_set: bool) -> bool
    ensures { (if result then Some flag.new else None) ≡ flag_shown_once flag.old is_set }
{
    if flag.is_some() {
        return false;
    }
    *flag = Some(is_set);
    true
}

/// The mode of that name, in either case.
pub(crate) fn mode_named(word: &[u8]) -> Option<Mode>
    ensures { result ≡ mode_named word.now }
{
    if has_letters(word, b"USR") {
        Some(Mode::User)
    } else if has_letters(word, b"FIQ") {
        Some(Mode::FastInterrupt)
    } else if has_letters(word, b"IRQ") {
        Some(Mode::Interrupt)
    } else if has_letters(word, b"SVC") {
        Some(Mode::Supervisor)
    } else {
        None
    }
}
