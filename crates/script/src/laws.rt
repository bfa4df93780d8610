ghost use Rattle.script.specs.Laws.{NoByteNoWord, BlanksInFront, CommentsAreIgnored, WordsAreTold, CommentsEndWords, LinesEndWords, CallsReadBack, HostsReadBack};

/// The words of a line stand between blanks, up to a comment.
pub fn words_stand_between_blanks()
    ensures an_empty_line_has_none { NoByteNoWord }
    ensures blanks_in_front_change_nothing { BlanksInFront }
    ensures a_comment_has_none { CommentsAreIgnored }
    ensures a_word_is_told_before_those_behind_it { WordsAreTold }
    ensures a_comment_ends_the_last_word { CommentsEndWords }
    ensures the_line_ends_the_last_word { LinesEndWords }
{}

/// A name and as many numbers as it takes are read as its call, and `host` with a kind as that choice.
pub fn calls_read_back()
    ensures a_name_and_its_numbers { CallsReadBack }
    ensures the_choice_of_a_host { HostsReadBack }
{}
