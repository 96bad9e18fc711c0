//! Laws of the definitions: each is the contract of a function that does nothing.
ghost use Rattle.ps_picture.specs.Laws.{ActsHaveRows, BarsGoForward};

/// Each act of a plan has one row.
pub fn acts_have_rows()
    ensures { ActsHaveRows }
{}

/// No bar ends before it begins.
pub fn bars_go_forward()
    ensures { BarsGoForward }
{}
