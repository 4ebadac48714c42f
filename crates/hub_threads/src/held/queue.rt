//! One message queue.
ghost use Rattle.std.specs.Prelude.{◌≡◌, ◌≤◌, [], ◌∷◌, ◌++◌, IfOk, IfErr, OnErr, OnOk, length, vec_capacity};
ghost use Rattle.std.specs.Option.{option_map};
ghost use Rattle.pl_model.specs.Threads.{first_message};
ghost use Rattle.hub_threads.specs.Distinct.{has_number};
ghost use Rattle.hub_threads.specs.Held.{contents, first_of, message_places, named_message, TakesFirst};
ghost use Rattle.hub_threads.specs.Located.{Locates};

use crate::held::searches::message_at;
use pl_model::kept::Kept;
use pl_model::threads::Message;
use pl_term::Memory;
use std::alloc::Global;
use std::marker::Model;

/// A queue of messages of type `M`.
#[derive(Drop)]
pub struct Queue<M> {
    number: u64,
    is_own: bool,
    messages: Vec<Message<M>>,
}

impl<M> Model for Queue<M> {
    ghost use Rattle.pl_model.specs.Threads.{Queue as Messages};

    ghost Value = { Messages M };

    ghost view = { λ q. record { number = q.number; is_own = q.is_own; messages = q.messages.items } };
}

impl<M: Drop> Queue<M> {
    /// A queue without messages.
    pub fn new(alloc: Global, number: u64, is_own: bool) -> Queue<M>
        ensures { result ≡ record { number = number; is_own = is_own; messages = [] } }
    {
        Queue {
            number,
            is_own,
            messages: Vec::new(alloc),
        }
    }

    /// Its number.
    pub fn number(&self) -> u64
        ensures { result ≡ self.now.number }
    {
        self.number
    }

    /// Whether it is a thread's own.
    pub fn is_own(&self) -> bool
        ensures { result ≡ self.now.is_own }
    {
        self.is_own
    }

    /// Its messages in their order.
    pub fn messages(&self) -> &[Message<M>]
        ensures { result.now ≡ self.now.messages }
    {
        self.messages.as_slice()
    }

    /// Whether a message of it was sent at the place.
    pub fn has_place(&self, place: u64) -> bool
        ensures { result ≡ has_number place (message_places self.now.messages) }
    {
        message_at(self.messages.as_slice(), place).is_some()
    }

    /// Puts a message after the others. Where there is no memory for it, it is handed back, and nothing has changed.
    pub fn push(&mut self, place: u64, content: M) -> Result<(), M>
        ensures pushed { OnOk result (self.new ≡ record self.old { messages = self.old.messages ++ record { place = place; content = content } ∷ [] }) }
        ensures refused { IfErr result (λ m. m ≡ content) }
        ensures unchanged { OnErr result (self.new ≡ self.old) }
    {
        match self.messages.push(Message { place, content }) {
            Ok(()) => Ok(()),
            Err(refused) => Err(refused.value.content),
        }
    }

    /// The contents of its messages, put into a vector that has room for them.
    pub fn into_contents(self, room: Vec<M>) -> Vec<M>
        requires empty { room.items ≡ [] }
        requires room { length self.messages ≤ vec_capacity room }
        ensures { result.items ≡ contents self.messages }
    {
        moved(self.messages, room)
    }
}

impl<M: Kept> Queue<M> {
    /// Takes out the first message that unifies with the pattern. The only error is out of memory, and then nothing has
    /// changed.
    pub fn take_first(&mut self, alloc: Global, pattern: &M) -> Result<Option<Message<M>>, Memory>
        ensures taken { IfOk result (λ r. TakesFirst (first_message (M.unified pattern.now) self.old) r self.old self.new) }
        ensures unchanged { OnErr result (self.new ≡ self.old) }
    {
        match first_unifying(alloc, self.messages.as_slice(), pattern) {
            Err(_) => Err(Memory),
            Ok(None) => Ok(None),
            Ok(Some(i)) => Ok(Some(self.messages.remove(i))),
        }
    }

    /// The first message that unifies with the pattern, with its place. The only error is out of memory.
    pub fn peek_first(&self, alloc: Global, pattern: &M) -> Result<Option<(u64, &M)>, Memory>
        ensures { IfOk result (λ r. option_map (λ p. (p.0, p.1.now)) r ≡ option_map named_message (first_message (M.unified pattern.now) self.now)) }
    {
        match first_unifying(alloc, self.messages.as_slice(), pattern) {
            Err(_) => Err(Memory),
            Ok(None) => Ok(None),
            Ok(Some(i)) => {
                let message = &self.messages[i];
                Ok(Some((message.place, &message.content)))
            }
        }
    }
}

/// The contents of messages, put into a vector that has room for them.
fn moved<M: Drop>(messages: Vec<Message<M>>, room: Vec<M>) -> Vec<M>
    requires empty { room.items ≡ [] }
    requires room { length messages.items ≤ vec_capacity room }
    ensures { result.items ≡ contents messages.items }
{
    let mut all = room;
    for message in messages {
        all.push_reserved(message.content);
    }
    all
}

/// Where the first of these messages stands that unifies with the pattern. The only error is out of memory.
fn first_unifying<M: Kept>(
    alloc: Global,
    messages: &[Message<M>],
    pattern: &M,
) -> Result<Option<usize>, Memory>
    ensures { IfOk result (λ r. Locates (first_of (M.unified pattern.now) messages.now) messages.now r) }
{
    for i in 0..messages.len() {
        if pattern.unifies(alloc, &messages[i].content)? {
            return Ok(Some(i));
        }
    }
    Ok(None)
}
