//! Words with spaces between them are read as those words.
//!
//! The function does nothing. It promises the law that it names.
#![tactic(auto)]

ghost use Rattle.law_script_words.specs.Spoken.{WordsAreFine, WordsAreRead};

/// Words with spaces between them are read as those words, each at its column. A line of words of at most 8,400 bytes has no
/// offence in its bytes.
pub fn words_are_read()
    ensures read { WordsAreRead }
    ensures fine { WordsAreFine }
{}
