//! A node is given what is carried into its epoch.
ghost use Rattle.std.specs.Prelude.{◌≡◌, ◌⊎◌, ◌∷◌, [], false, map, OnOk, IfErr};
ghost use Rattle.scp_turn.specs.Episode.{IsOfHost};
ghost use Rattle.scp_turn.specs.Turn.{links_of};
ghost use Rattle.scp_epoch.specs.Played.{event_of, openings, closings, carrying};
ghost use Rattle.scp_epoch.specs.inside.Playing.{Plays};

use crate::input::{Input, event_of_input};
use scp_again::below::node::Application;
use scp_again::below::types::{Fault, LINK_LIMIT};
use scp_turn::{Event, Node, play};
use std::alloc::Global;

/// How many links a node has.
pub fn count_links<A: Application + Drop + Copy>(node: &Node<A>) -> u8
    ensures { result ≡ links_of node.now }
{
    node.peers().len().min(LINK_LIMIT as usize) as u8
}

/// Plays an event, and all that follows from it; what goes out is dropped.
fn play_one<A: Application + Drop + Copy>(
    alloc: Global,
    node: &mut Node<A>,
    event: Event,
) -> Result<(), Fault>
    requires of_host { IsOfHost event }
    requires runs { node.old.failed ≡ false }
    ensures played { Plays A.says (event ∷ []) result node.old node.new }
    ensures runs { OnOk result (node.new.failed ≡ false) }
    ensures only { IfErr result (λ f. (f ≡ Fault.NoMemory) ⊎ (f ≡ Fault.JournalFull)) }
{
    let _ = play(alloc, node, event)?;
    Ok(())
}

/// Opens this many links.
fn open_all<A: Application + Drop + Copy>(
    alloc: Global,
    node: &mut Node<A>,
    links: u8,
) -> Result<(), Fault>
    requires runs { node.old.failed ≡ false }
    ensures played { Plays A.says (openings links) result node.old node.new }
    ensures runs { OnOk result (node.new.failed ≡ false) }
    ensures only { IfErr result (λ f. (f ≡ Fault.NoMemory) ⊎ (f ≡ Fault.JournalFull)) }
{
    for link in 0..links {
        play_one(alloc, node, Event::Open(link))?;
    }
    Ok(())
}

/// Gives a node what is carried, in order.
fn give_all<A: Application + Drop + Copy>(
    alloc: Global,
    node: &mut Node<A>,
    carried: Vec<Input>,
) -> Result<(), Fault>
    requires runs { node.old.failed ≡ false }
    ensures played { Plays A.says (map event_of carried.items) result node.old node.new }
    ensures runs { OnOk result (node.new.failed ≡ false) }
    ensures only { IfErr result (λ f. (f ≡ Fault.NoMemory) ⊎ (f ≡ Fault.JournalFull)) }
{
    for input in carried {
        play_one(alloc, node, event_of_input(input))?;
    }
    Ok(())
}

/// Closes this many links.
fn close_all<A: Application + Drop + Copy>(
    alloc: Global,
    node: &mut Node<A>,
    links: u8,
) -> Result<(), Fault>
    requires runs { node.old.failed ≡ false }
    ensures played { Plays A.says (closings links) result node.old node.new }
    ensures runs { OnOk result (node.new.failed ≡ false) }
    ensures only { IfErr result (λ f. (f ≡ Fault.NoMemory) ⊎ (f ≡ Fault.JournalFull)) }
{
    for link in 0..links {
        play_one(alloc, node, Event::Close(link))?;
    }
    Ok(())
}

/// Opens each link of a node, gives it what is carried, and closes each link.
pub fn carry<A: Application + Drop + Copy>(
    alloc: Global,
    node: &mut Node<A>,
    carried: Vec<Input>,
) -> Result<(), Fault>
    requires runs { node.old.failed ≡ false }
    ensures played { Plays A.says (carrying (links_of node.old) carried.items) result node.old node.new }
    ensures runs { OnOk result (node.new.failed ≡ false) }
    ensures only { IfErr result (λ f. (f ≡ Fault.NoMemory) ⊎ (f ≡ Fault.JournalFull)) }
{
    let links = count_links(node);
    open_all(alloc, node, links)?;
    give_all(alloc, node, carried)?;
    close_all(alloc, node, links)
}
