//! How a run ended: the name that its report gives, and the status.

ghost use Rattle.std.specs.Prelude.{◌≡◌, ◌≤◌, ◌+◌, ◌++◌, length};
ghost use Rattle.cli_run_texts.specs.Ends.{clocked_end, end_name, status_of};

use cli_outside::Status;
use ijvm_reference::PlainEnd;
use mic_base::Line;
use mic_clock::End;

/// Appends the name of an end.
pub fn end_name(line: &mut Line, end: End)
    requires { length line.old + 32 ≤ 512 }
    ensures text { line.new ≡ line.old ++ end_name end }
    ensures len { length line.new ≤ length line.old + 32 }
{
    match end {
        End::Halt => line.text("halt"),
        End::Err => line.text("error"),
        End::Bound => line.text("bound"),
        End::StackLimit => line.text("stack-limit"),
        End::ReadFault => line.text("read-fault"),
        End::WriteFault => line.text("write-fault"),
        End::OutOfMap(at) => line.word("out-of-map at ", at),
        End::Adrift => line.text("adrift"),
    }
}

/// The status of a run with this end.
pub fn status_of(end: End) -> Status
    ensures { result.0 ≡ status_of end }
{
    match end {
        End::Halt => Status::DONE,
        End::Err => Status::ERROR,
        End::Bound => Status::BOUND,
        End::StackLimit => Status::STACK_LIMIT,
        End::ReadFault => Status::CONSOLE,
        End::WriteFault => Status::SINK,
        End::OutOfMap(_) => Status::OUT_OF_MAP,
        End::Adrift => Status::ADRIFT,
    }
}

/// The clock's word for an end of the plain machine.
pub fn clocked_end(end: PlainEnd) -> End
    ensures { result ≡ clocked_end end }
{
    match end {
        PlainEnd::Halt => End::Halt,
        PlainEnd::Err => End::Err,
        PlainEnd::Bound => End::Bound,
        PlainEnd::StackLimit => End::StackLimit,
        PlainEnd::ReadFault => End::ReadFault,
        PlainEnd::WriteFault => End::WriteFault,
    }
}
