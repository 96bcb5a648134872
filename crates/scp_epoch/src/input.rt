//! What is carried from one epoch into the next.
ghost use Rattle.std.specs.Prelude.{◌≡◌};
ghost use Rattle.scp_turn.specs.Episode.{IsOfHost};
ghost use Rattle.scp_epoch.specs.Played.{event_of};

use scp_again::below::wire::{Bytes, Command};
use scp_turn::Event;

/// What a node took, and is given once more: all that a host gives but the opening and the closing of links.
#[derive(Drop)]
pub enum Input {
    /// Bytes that came over the link of this number.
    Message(u8, Bytes),
    /// A command.
    Command(Command),
}

/// The event that gives it.
pub fn event_of_input(input: Input) -> Event
    ensures event { result ≡ event_of input }
    ensures of_host { IsOfHost result }
{
    match input {
        Input::Message(link, bytes) => Event::Send(link, bytes),
        Input::Command(command) => Event::Local(command),
    }
}
