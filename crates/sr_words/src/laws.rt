//! The law of the words, proved over the definitions alone.
ghost use Rattle.sr_words.specs.Laws.{WordsAskForOneTask};

/// Words ask for at most one task.
pub fn words_ask_for_one_task()
    ensures { WordsAskForOneTask }
{}
