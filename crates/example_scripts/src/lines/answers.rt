//! Each answer as worked scripts show it.

ghost use Rattle.example_scripts.specs.LineCases.{ArePrinted};
ghost use Rattle.example_scripts.specs.Answers as shown;

/// Answers of one word.
pub fn answers_of_one_word()
    ensures { ArePrinted shown.words }
{}

/// Keys, numbers and bytes.
pub fn numbers_keys_and_bytes()
    ensures { ArePrinted shown.numbers }
{}

/// A dump that is shown, and one that is too long for it.
pub fn dumps()
    ensures { ArePrinted shown.dumps }
{}

/// What datagrams did, and what was sent for them.
pub fn what_datagrams_did()
    ensures { ArePrinted shown.done }
{}

/// Why requests were refused, ends ended, or datagrams did nothing.
pub fn why_datagrams_did_nothing()
    ensures { ArePrinted shown.not_done }
{}

/// Completions of each kind and with each status, and none.
pub fn completions()
    ensures { ArePrinted shown.completions }
{}

/// What settling left, each with why.
pub fn what_settling_left()
    ensures { ArePrinted shown.quiets }
{}

/// Each refusal.
pub fn refusals()
    ensures { ArePrinted shown.refusals }
{}

/// Expiries that do not count.
pub fn expiries_that_do_not_count()
    ensures { ArePrinted shown.not_counted }
{}
