// Status codes of gRPC, and sets of them.
ghost use Rattle.std.specs.Prelude.{◌≡◌, ◌<◌, ◌≤◌, ◌||◌, ◌==◌, Bool, IfSome, IfNone};
ghost use Rattle.grpc_base.specs.Codes.{code_number, no_codes, with_code, has_code};

use std::marker::Model;

/// A status code, as "Status codes and their use in gRPC" lists them.
#[derive(Clone, Copy, Debug, PartialEq, Eq)]
pub enum Code {
    Ok,
    Cancelled,
    Unknown,
    InvalidArgument,
    DeadlineExceeded,
    NotFound,
    AlreadyExists,
    PermissionDenied,
    ResourceExhausted,
    FailedPrecondition,
    Aborted,
    OutOfRange,
    Unimplemented,
    Internal,
    Unavailable,
    DataLoss,
    Unauthenticated,
}

impl Code {
    /// The code of this number; None exactly above 16.
    pub fn new(number: u64) -> Option<Code>
        ensures some { IfSome result (λ c. code_number c ≡ number) }
        ensures none { IfNone result (16 < number) }
    {
        let code = match number {
            0 => Code::Ok,
            1 => Code::Cancelled,
            2 => Code::Unknown,
            3 => Code::InvalidArgument,
            4 => Code::DeadlineExceeded,
            5 => Code::NotFound,
            6 => Code::AlreadyExists,
            7 => Code::PermissionDenied,
            8 => Code::ResourceExhausted,
            9 => Code::FailedPrecondition,
            10 => Code::Aborted,
            11 => Code::OutOfRange,
            12 => Code::Unimplemented,
            13 => Code::Internal,
            14 => Code::Unavailable,
            15 => Code::DataLoss,
            16 => Code::Unauthenticated,
            _ => return None,
        };
        Some(code)
    }

    /// Its number, from 0 to 16.
    pub fn number(self) -> u32
        ensures value { result ≡ code_number self }
        ensures within { result ≤ 16 }
    {
        match self {
            Code::Ok => 0,
            Code::Cancelled => 1,
            Code::Unknown => 2,
            Code::InvalidArgument => 3,
            Code::DeadlineExceeded => 4,
            Code::NotFound => 5,
            Code::AlreadyExists => 6,
            Code::PermissionDenied => 7,
            Code::ResourceExhausted => 8,
            Code::FailedPrecondition => 9,
            Code::Aborted => 10,
            Code::OutOfRange => 11,
            Code::Unimplemented => 12,
            Code::Internal => 13,
            Code::Unavailable => 14,
            Code::DataLoss => 15,
            Code::Unauthenticated => 16,
        }
    }
}

/// A set of status codes.
#[derive(Clone, Copy, Debug, PartialEq, Eq)]
pub struct CodeSet {
    members: [bool; 17],
}

impl Model for CodeSet {
    ghost use Rattle.std.specs.Prelude.{List, Bool};

    ghost Value = { List Bool };

    ghost view = { λ s. s.members };

    ghost inverse = { λ bs. record { members = bs } };
}

impl CodeSet {
    /// The empty set.
    pub fn new() -> CodeSet
        ensures { result ≡ no_codes }
    {
        CodeSet {
            members: [false; 17],
        }
    }

    /// Adds a code.
    pub fn add(&mut self, code: Code)
        ensures { self.new ≡ with_code self.old code }
    {
        self.members[code.number() as usize] = true;
    }

    /// Whether the set has this code.
    pub fn has(&self, code: Code) -> bool
        ensures { result ≡ has_code self.now code }
    {
        self.members[code.number() as usize]
    }
}
