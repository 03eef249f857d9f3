ghost use Rattle.std.specs.Prelude.{◌≡◌, Some};
ghost use Rattle.wire.specs.Faults.{record_refusal, message_refusal, file_refusal, record_number, message_number, file_number};
ghost use Rattle.wire.specs.Texts.{refusal_text};
ghost use Rattle.wire.specs.Writing.{shortage, shortage_number};

use crate::fault::{FileFault, Layer, MessageFault, RecordFault, Refusal, ShortBuffer};
use refusals::Numbered;
use std::fmt;

impl From<RecordFault> for Refusal {
    ghost from_gives = { λ fault r. r ≡ record_refusal fault };

    fn from(fault: RecordFault) -> Refusal {
        let (RecordFault::Length { offset } | RecordFault::Kind { offset }) = fault;
        Refusal {
            number: fault.number(),
            offset,
            layer: Layer::Record,
        }
    }
}

impl From<MessageFault> for Refusal {
    ghost from_gives = { λ fault r. r ≡ message_refusal fault };

    fn from(fault: MessageFault) -> Refusal {
        match fault {
            MessageFault::Record(fault) => fault.into(),
            MessageFault::Length { offset } => Refusal {
                number: fault.number(),
                offset,
                layer: Layer::Message,
            },
        }
    }
}

impl From<FileFault> for Refusal {
    ghost from_gives = { λ fault r. r ≡ file_refusal fault };

    fn from(fault: FileFault) -> Refusal {
        match fault {
            FileFault::Message(fault) => fault.into(),
            FileFault::Capacity { offset } => Refusal {
                number: fault.number(),
                offset,
                layer: Layer::File,
            },
        }
    }
}

// A refusal is printed as `refused 3 at 0`.
impl fmt::Display for Refusal {
    ghost output = { λ r. Some (refusal_text r) };

    fn fmt<W: fmt::Write>(&self, f: &mut fmt::Formatter<W>) -> fmt::Result {
        write!(f, "refused {} at {}", self.number, self.offset)
    }
}

// In a match, and not at the variants: an enum of which a variant has an offset cannot be cast.
impl Numbered for RecordFault {
    ghost number = { λ fault. (record_refusal fault).number };

    ghost in_range = { record_number };

    fn number(&self) -> u8 {
        match self {
            RecordFault::Length { .. } => 1,
            RecordFault::Kind { .. } => 2,
        }
    }
}

impl Numbered for MessageFault {
    ghost number = { λ fault. (message_refusal fault).number };

    ghost in_range = { message_number };

    fn number(&self) -> u8 {
        match self {
            MessageFault::Record(fault) => fault.number(),
            MessageFault::Length { .. } => 3,
        }
    }
}

impl Numbered for FileFault {
    ghost number = { λ fault. (file_refusal fault).number };

    ghost in_range = { file_number };

    fn number(&self) -> u8 {
        match self {
            FileFault::Message(fault) => fault.number(),
            FileFault::Capacity { .. } => 4,
        }
    }
}

impl Numbered for ShortBuffer {
    ghost number = { λ short. (shortage short).number };

    ghost in_range = { shortage_number };

    fn number(&self) -> u8 {
        5
    }
}
