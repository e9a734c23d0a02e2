//! What holds of every datapath's cycles.

ghost use Rattle.mic_datapath.specs.Access.{AtConsole};
ghost use Rattle.mic_datapath.specs.Sides.{PassesSideB};

/// An operation finds 0 on the B bus where it does not use it.
pub fn side_law()
    ensures { PassesSideB }
{}

/// Past the memory's words, a read takes the first untaken byte, and a write gives one byte more.
pub fn console_law()
    ensures { AtConsole }
{}
