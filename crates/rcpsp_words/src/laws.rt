//! Laws of the words, each the contract of a function with an empty body.
ghost use Rattle.rcpsp_words.specs.Many.{PlainWordsSayOneFile};

/// Where the plain words of a name are understood, they say that this file is scheduled in the order
/// by number, by one worker, without a calendar or an improvement, and shown as a table.
pub fn plain_words_say_one_file()
    ensures { PlainWordsSayOneFile }
{}
