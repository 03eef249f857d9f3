ghost use Rattle.std.specs.Prelude.{◌≡◌};
ghost use Rattle.wire.specs.declared.fault.MessageFault.TheVariants.{Record as OfRecord};
ghost use Rattle.wire.specs.declared.fault.FileFault.TheVariants.{Message as OfMessage};

/// The layer that found a fault.
#[derive(Clone, Copy, PartialEq, Eq, Debug)]
pub enum Layer {
    Record,
    Message,
    File,
}

/// A fault as it is told: its number, the offset of the record at fault, and the layer that found it.
/// Number and layer are what is told: an enum of causes would say twice what the variants of the faults below say.
#[derive(Clone, Copy, PartialEq, Eq, Debug)]
pub struct Refusal {
    pub number: u8,
    pub offset: usize,
    pub layer: Layer,
}

/// What the record layer refuses. Each variant has an offset of its own: one beside the fault would stand twice where a fault holds another.
#[derive(Clone, Copy, PartialEq, Eq, Debug)]
pub enum RecordFault {
    /// 1 to 3 bytes are left, or the length is below 4 or passes the end
    Length { offset: usize },
    /// the kind is neither 1 nor 2
    Kind { offset: usize },
}

/// What the message layer refuses.
#[derive(Clone, Copy, PartialEq, Eq, Debug)]
pub enum MessageFault {
    Record(RecordFault),
    /// fewer than 16 bytes, more than 16 signatures, or another length than they take
    Length { offset: usize },
}

/// What the file layer refuses.
#[derive(Clone, Copy, PartialEq, Eq, Debug)]
pub enum FileFault {
    Message(MessageFault),
    /// the file is over 32,768 bytes, or has a message more than 128 or than the table holds
    Capacity { offset: usize },
}

/// What writing refuses: the buffer is shorter than the message.
#[derive(Clone, Copy, PartialEq, Eq, Debug)]
pub struct ShortBuffer {
    pub needed: usize,
}

impl From<RecordFault> for MessageFault {
    ghost from_gives = { λ fault r. r ≡ OfRecord fault };

    fn from(fault: RecordFault) -> MessageFault {
        MessageFault::Record(fault)
    }
}

impl From<MessageFault> for FileFault {
    ghost from_gives = { λ fault r. r ≡ OfMessage fault };

    fn from(fault: MessageFault) -> FileFault {
        FileFault::Message(fault)
    }
}
