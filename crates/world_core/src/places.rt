//! Where tickets and sessions stand.

ghost use Rattle.std.specs.Prelude.{◌≡◌, ◌<◌, ◌≤◌, ◌&&◌, nat_le, ◌==◌, length, position, find, slice_index_or, Some, None, MatchOption, vec_len, vec_capacity};
ghost use Rattle.std.specs.List.{position_or_len};
ghost use Rattle.world_core.specs.World.{Ticket, Session, with_ticket};

use crate::held::Held;
use crate::parts::Session;

fn first_of(tickets: &[Held], k: u32) -> Option<usize>
    ensures { result ≡ position (λ (t : Ticket). t.number == k) tickets.now }
{
    tickets.iter().position(|t| t.number() == k)
}

/// The place of ticket `k`, counted from 0.
pub(crate) fn place_of(tickets: &[Held], k: u32) -> Option<usize>
    ensures place { result ≡ position (λ (t : Ticket). t.number == k) tickets.now }
    ensures found { MatchOption result (find (λ (t : Ticket). t.number == k) tickets.now ≡ None) (λ at. (at < length tickets.now) × ((d : Ticket) → find (λ (t : Ticket). t.number == k) tickets.now ≡ Some (slice_index_or tickets.now at d))) }
{
    first_of(tickets, k)
}

/// The place of the first ticket of this number or a greater one.
fn first_from(tickets: &[Held], k: u32) -> Option<usize>
    ensures { result ≡ position (λ (t : Ticket). nat_le k t.number) tickets.now }
{
    tickets.iter().position(|t| k <= t.number())
}

/// The place that a new ticket `k` gets, in rising order of number.
fn place_for(tickets: &[Held], k: u32) -> usize
    ensures within { result ≤ length tickets.now }
    ensures place { result ≡ position_or_len (λ (t : Ticket). nat_le k t.number) tickets.now }
{
    match first_from(tickets, k) {
        Some(at) => at,
        None => tickets.len(),
    }
}

/// Puts in a ticket of a new number. There is a place for it.
pub(crate) fn put_new(tickets: &mut Vec<Held>, held: Held)
    requires new { find (λ (t : Ticket). t.number == held.number) tickets.old.items ≡ None }
    requires room { vec_len tickets.old < vec_capacity tickets.old }
    ensures { tickets.new.items ≡ with_ticket held tickets.old.items }
{
    let at = place_for(tickets.as_slice(), held.number());
    tickets.insert(at, held).unwrap();
}

fn first_between(sessions: &[Session], a: u16, b: u16) -> Option<usize>
    ensures { result ≡ position (λ (s : Session). (s.supplier == a) && (s.consumer == b)) sessions.now }
{
    sessions
        .iter()
        .position(|s| s.supplier == a && s.consumer == b)
}

/// The place of the session of two nodes.
pub(crate) fn session_place(sessions: &[Session], a: u16, b: u16) -> Option<usize>
    ensures { MatchOption result (find (λ (s : Session). (s.supplier == a) && (s.consumer == b)) sessions.now ≡ None) (λ at. (at < length sessions.now) × ((d : Session) → find (λ (s : Session). (s.supplier == a) && (s.consumer == b)) sessions.now ≡ Some (slice_index_or sessions.now at d))) }
{
    first_between(sessions, a, b)
}
