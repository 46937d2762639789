//! A law of numbers that are drawn. The function does nothing: its contract is the law.
ghost use Rattle.stm_job.specs.Laws.{EachOnceIsAsMany};

/// Where the numbers below n are drawn, each once, n numbers are drawn.
pub fn each_once_is_as_many()
    ensures { EachOnceIsAsMany }
{}
