ghost use Rattle.std.specs.Prelude.{◌≡◌};
ghost use Rattle.promise_desk.specs.Status.{code_of, fixed_line};

/// How the program ends.
#[derive(Clone, Copy, Debug, PartialEq, Eq)]
pub enum Status {
    /// All was read and written, and every verdict is firm or contingent.
    Consistent,
    /// All was read and written, and some verdict is inconsistent.
    Inconsistent,
    /// The words are no command.
    Usage,
    /// The input failed.
    InputFault,
    /// The output failed.
    OutputFault,
    /// The input is no bundle.
    BadBundle,
    /// A file isn't read, or isn't of the form that is judged.
    Unreadable,
    /// Two types have one name.
    DuplicateType,
    /// A limit is passed.
    Limit,
    /// The allocator had no memory.
    Memory,
}

impl Status {
    /// The exit status.
    pub fn code(self) -> u8
        ensures { result ≡ code_of self }
    {
        match self {
            Status::Consistent => 0,
            Status::Inconsistent => 1,
            Status::Usage => 2,
            Status::InputFault => 3,
            Status::OutputFault => 4,
            Status::BadBundle => 6,
            Status::Unreadable => 7,
            Status::DuplicateType => 8,
            Status::Limit => 9,
            Status::Memory => 11,
        }
    }

    /// The one line that is written, where it is always the same; else nothing.
    pub fn line(self) -> &'static str
        ensures { result.now ≡ fixed_line self }
    {
        match self {
            Status::Usage =>
                "usage: promise_desk check | script DB | serve DB PORT COUNT | sample N\n",
            Status::InputFault => "input fault\n",
            Status::Memory => "memory\n",
            _ => "",
        }
    }
}
