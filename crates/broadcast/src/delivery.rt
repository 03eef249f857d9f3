ghost use Rattle.std.specs.Prelude.{◌≡◌};
ghost use Rattle.broadcast.specs.Instances.{delivered};

use auth::Roster;
use wire::Message;

/// An injected message arrives only from a faulty node at an honest one.
pub fn is_delivered(roster: &Roster, message: &Message) -> bool
    ensures { result ≡ delivered roster.now message.now }
{
    roster.is_faulty(message.sender) && roster.is_honest(message.receiver)
}
