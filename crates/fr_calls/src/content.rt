// What a kernel object has, in a state: its values, its count, its holder, its bytes or its messages.
ghost use Rattle.std.specs.Prelude.{◌≡◌, ◌+◌, ◌^◌, ◌++◌, ◌∷◌, ◌<◌, ◌≤◌, ◌↔◌, ℕ, ℤ, pos, [], List, Some, IsTrue, IsSome, OnOk, OnErr, IfOk, IfSome, IfNone, is_some, sum};
ghost use Rattle.fr_program.specs.Limits.{KindInLimits};

use crate::moves::Moves;
use fr_program::{ActorId, Kind};
use std::alloc::{AllocError, Global};
use std::collections::VecDeque;
use std::marker::Model;

/// The lengths of a message buffer's messages, the first one first, and their sum.
#[derive(Debug, Drop)]
pub struct Messages {
    lengths: VecDeque<u32>,
    total: u64,
    ghost summed: { total ≡ sum lengths.items },
}

/// What an object has, by its kind. Queues and message buffers are deques, so that a step costs the
/// same whatever they hold.
#[derive(Debug, Drop)]
pub enum Stock {
    /// The object isn't live.
    Dead,
    /// A queue's values, the first one first.
    Values(VecDeque<i64>),
    /// A binary or counting semaphore's count.
    Count(u32),
    /// A mutex, plain or recursive, that nobody holds.
    Free,
    /// A mutex that this actor holds, so often.
    Held { holder: ActorId, count: u32 },
    /// How many bytes a stream buffer has.
    Bytes(u32),
    /// The messages of a message buffer.
    Lengths(Messages),
}

/// What a kernel object has, or that it is dead.
#[derive(Debug, Drop)]
pub struct Content {
    stock: Stock,
}

impl Model for Content {
    ghost use Rattle.fr_rules.specs.State.{Content as ContentOf};

    ghost Value = { ContentOf };

    ghost use Rattle.fr_calls.specs.View.{content_kept};

    ghost view = { λ c. content_kept c.stock };
}

impl Messages {
    /// No messages. Takes no memory.
    pub fn new(alloc: Global) -> Messages
        ensures { result.lengths.items ≡ [] }
    {
        Messages {
            lengths: VecDeque::new(alloc),
            total: 0,
        }
    }

    /// The lengths, the first message's first.
    pub fn lengths(&self) -> &VecDeque<u32>
        ensures { result.now ≡ self.now.lengths }
    {
        &self.lengths
    }

    /// The same lengths once more.
    pub(crate) fn copied(&self) -> Result<Messages, AllocError>
        ensures { IfOk result (λ m. m.lengths.items ≡ self.now.lengths.items) }
    {
        Ok(Messages {
            lengths: self.lengths.clone()?,
            total: self.total,
        })
    }

    /// The sum of the lengths.
    pub(crate) fn total(&self) -> u64
        ensures { result ≡ sum self.now.lengths.items }
    {
        self.total
    }

    /// A message of this length is put last; where memory is refused, all is as it was.
    pub fn put(&mut self, length: u32) -> Result<(), AllocError>
        requires { sum self.old.lengths.items < 2 ^ 32 }
        ensures ok { OnOk result (self.new.lengths.items ≡ self.old.lengths.items ++ length ∷ []) }
        ensures err { OnErr result (self.new.lengths.items ≡ self.old.lengths.items) }
    {
        self.lengths.push_back(length)?;
        self.total += u64::from(length);
        Ok(())
    }

    /// The first message is taken, if there is one.
    fn take_first(&mut self) -> Option<u32>
        ensures some { IfSome result (λ l. self.old.lengths.items ≡ l ∷ self.new.lengths.items) }
        ensures none { IfNone result (self.old.lengths.items ≡ []) }
    {
        let length = self.lengths.pop_front()?;
        self.total -= u64::from(length);
        Some(length)
    }
}

impl Content {
    ghost use Rattle.fr_calls.specs.View.{content_kept};
    ghost use Rattle.fr_rules.specs.State.{Dead, Values, new_content, count_held};
    ghost use Rattle.fr_rules.specs.Step.{taken, given, is_full, queued, sent_bytes, received_bytes, sent_message, received_message};
    ghost use Rattle.fr_calls.specs.Moves.{IsAmong, IsRising};

    /// The content that this stock is.
    pub fn of(stock: Stock) -> Content
        ensures { result ≡ content_kept stock }
    {
        Content { stock }
    }

    /// What the object has, by its kind.
    pub fn stock(&self) -> &Stock
        ensures { content_kept result.now ≡ self.now }
    {
        &self.stock
    }

    /// Nothing: the object is dead.
    pub(crate) fn dead() -> Content
        ensures { result ≡ Dead }
    {
        Content { stock: Stock::Dead }
    }

    /// What a new object of this kind has: nothing, a counting semaphore its first count; a mutex is
    /// free. Takes no memory.
    pub(crate) fn new(alloc: Global, kind: Kind) -> Content
        requires { KindInLimits kind }
        ensures { result ≡ new_content kind }
    {
        let stock = match kind {
            Kind::Queue { .. } => Stock::Values(VecDeque::new(alloc)),
            Kind::Binary => Stock::Count(0),
            Kind::Counting { first, .. } => Stock::Count(first as u32),
            Kind::Mutex | Kind::Recursive => Stock::Free,
            Kind::Stream { .. } => Stock::Bytes(0),
            Kind::Message { .. } => Stock::Lengths(Messages::new(alloc)),
        };
        Content { stock }
    }

    /// Whether the object is dead.
    pub fn is_dead(&self) -> bool
        ensures { IsTrue result ↔ (self.now ≡ Dead) }
    {
        matches!(&self.stock, Stock::Dead)
    }

    /// How often the actor holds the object, 0 where it doesn't.
    pub fn count_held(&self, actor: ActorId) -> u32
        ensures { result ≡ count_held actor.0 self.now }
    {
        match &self.stock {
            Stock::Held { holder, count } if holder.0 == actor.0 => *count,
            _ => 0,
        }
    }

    /// Whether the actor's take works: a mutex is free, a recursive one free or the actor's own, a
    /// semaphore's count is above 0.
    pub(crate) fn can_take(&self, kind: Kind, actor: ActorId) -> bool
        ensures { result ≡ is_some (taken kind actor.0 self.now) }
    {
        match (kind, &self.stock) {
            (Kind::Mutex | Kind::Recursive, Stock::Free) => true,
            (Kind::Recursive, Stock::Held { holder, .. }) => holder.0 == actor.0,
            (Kind::Binary | Kind::Counting { .. }, Stock::Count(count)) => *count > 0,
            _ => false,
        }
    }

    /// A take that works: the actor holds a mutex once more; a semaphore's count goes down by 1.
    pub(crate) fn take(&mut self, kind: Kind, actor: ActorId)
        requires can { IsSome (taken kind actor.0 self.old) }
        requires small { count_held actor.0 self.old ≤ 255 }
        ensures { taken kind actor.0 self.old ≡ Some self.new }
    {
        let stock = match &self.stock {
            Stock::Held { count, .. } => Stock::Held {
                holder: actor,
                count: *count + 1,
            },
            Stock::Count(count) => Stock::Count(*count - 1),
            _ => Stock::Held {
                holder: actor,
                count: 1,
            },
        };
        self.stock = stock;
    }

    /// Whether a give works: a mutex is held, a binary semaphore's count is below 1, a counting one's
    /// is below its size.
    pub(crate) fn can_give(&self, kind: Kind) -> bool
        ensures { result ≡ is_some (given kind self.now) }
    {
        match (kind, &self.stock) {
            (Kind::Mutex | Kind::Recursive, Stock::Held { .. }) => true,
            (Kind::Binary, Stock::Count(count)) => *count < 1,
            (Kind::Counting { size, .. }, Stock::Count(count)) => i64::from(*count) < size,
            _ => false,
        }
    }

    /// Whether a give is refused: a binary semaphore's count is 1, a counting one's is its size.
    pub(crate) fn is_full(&self, kind: Kind) -> bool
        ensures { result ≡ is_full kind self.now }
    {
        match (kind, &self.stock) {
            (Kind::Binary, Stock::Count(count)) => *count == 1,
            (Kind::Counting { size, .. }, Stock::Count(count)) => i64::from(*count) == size,
            _ => false,
        }
    }

    /// A give that works: a mutex is held once less, and free after the last time; a semaphore's count
    /// goes up by 1.
    pub(crate) fn give(&mut self, kind: Kind)
        requires can { IsSome (given kind self.old) }
        requires limits { KindInLimits kind }
        ensures { given kind self.old ≡ Some self.new }
    {
        let stock = match (kind, &self.stock) {
            (_, Stock::Count(count)) => Stock::Count(*count + 1),
            (Kind::Recursive, Stock::Held { holder, count }) if *count != 1 => Stock::Held {
                holder: *holder,
                count: count.saturating_sub(1),
            },
            _ => Stock::Free,
        };
        self.stock = stock;
    }

    /// Whether the queue has room for one more value.
    pub(crate) fn has_room(&self, kind: Kind) -> bool
        ensures { (v : ℤ) → result ≡ is_some (queued v kind self.now) }
    {
        match (kind, &self.stock) {
            (Kind::Queue { size, .. }, Stock::Values(values)) => (values.len() as i128)
                < i128::from(size),
            _ => false,
        }
    }

    /// The value is put last; where memory is refused, all is as it was.
    pub(crate) fn put(&mut self, kind: Kind, value: i64) -> Result<(), AllocError>
        requires { IsSome (queued value kind self.old) }
        ensures ok { OnOk result (queued value kind self.old ≡ Some self.new) }
        ensures err { OnErr result (self.new ≡ self.old) }
    {
        match &mut self.stock {
            Stock::Values(values) => values.push_back(value)?,
            _ => unreachable!(),
        }
        Ok(())
    }

    /// Whether the queue has a value.
    pub(crate) fn has_value(&self) -> bool
        ensures { IsTrue result ↔ ((v : ℤ) × (rest : List ℤ) × (self.now ≡ Values (v ∷ rest))) }
    {
        match &self.stock {
            Stock::Values(values) => !values.is_empty(),
            _ => false,
        }
    }

    /// The queue's first value is taken, if it has one.
    pub(crate) fn take_first(&mut self) -> Option<i64>
        ensures some { IfSome result
            (λ v. (rest : List ℤ) × (self.old ≡ Values (v ∷ rest)) × (self.new ≡ Values rest)) }
        ensures none { IfNone result ((v : ℤ) (rest : List ℤ) → self.old ≡ Values (v ∷ rest) → ⊥) }
    {
        match &mut self.stock {
            Stock::Values(values) => values.pop_front(),
            _ => None,
        }
    }

    /// How many of at most `length` bytes can be sent.
    pub(crate) fn bytes_to_send(&self, kind: Kind, length: u32) -> Moves
        ensures exact { (c : ℤ) → (IsAmong result c ↔
            (k : ℕ) × (c ≡ pos k) × (k ≤ length) × IsSome (sent_bytes k kind self.now)) }
        ensures rising { IsRising result }
    {
        match (kind, &self.stock) {
            (Kind::Stream { size }, Stock::Bytes(bytes)) if i64::from(*bytes) <= size => {
                let free = u32::try_from(size - i64::from(*bytes)).unwrap_or(u32::MAX);
                Moves::up_to(length.min(free))
            }
            _ => Moves::None,
        }
    }

    /// So many bytes are sent.
    pub(crate) fn send_bytes(&mut self, kind: Kind, bytes: u32)
        requires can { IsSome (sent_bytes bytes kind self.old) }
        requires limits { KindInLimits kind }
        ensures { sent_bytes bytes kind self.old ≡ Some self.new }
    {
        let stock = match &self.stock {
            Stock::Bytes(before) => Stock::Bytes(*before + bytes),
            _ => unreachable!(),
        };
        self.stock = stock;
    }

    /// How many of at most `length` bytes can be received.
    pub(crate) fn bytes_to_receive(&self, length: u32) -> Moves
        ensures exact { (c : ℤ) → (IsAmong result c ↔
            (k : ℕ) × (c ≡ pos k) × (k ≤ length) × IsSome (received_bytes k self.now)) }
        ensures rising { IsRising result }
    {
        match &self.stock {
            Stock::Bytes(bytes) => Moves::up_to(length.min(*bytes)),
            _ => Moves::None,
        }
    }

    /// So many bytes are received.
    pub(crate) fn receive_bytes(&mut self, bytes: u32)
        requires { IsSome (received_bytes bytes self.old) }
        ensures { received_bytes bytes self.old ≡ Some self.new }
    {
        let stock = match &self.stock {
            Stock::Bytes(before) => Stock::Bytes(*before - bytes),
            _ => unreachable!(),
        };
        self.stock = stock;
    }

    /// Whether a message of this length fits in the buffer.
    pub(crate) fn fits_message(&self, kind: Kind, length: u32) -> bool
        ensures { result ≡ is_some (sent_message length kind self.now) }
    {
        match (kind, &self.stock) {
            (Kind::Message { size }, Stock::Lengths(messages)) => {
                i128::from(messages.total) + i128::from(length) <= i128::from(size)
            }
            _ => false,
        }
    }

    /// A message of this length is put last; where memory is refused, all is as it was.
    pub(crate) fn send_message(&mut self, kind: Kind, length: u32) -> Result<(), AllocError>
        requires can { IsSome (sent_message length kind self.old) }
        requires limits { KindInLimits kind }
        ensures ok { OnOk result (sent_message length kind self.old ≡ Some self.new) }
        ensures err { OnErr result (self.new ≡ self.old) }
    {
        match &mut self.stock {
            Stock::Lengths(messages) => messages.put(length),
            _ => unreachable!(),
        }
    }

    /// The length of the first message, if there is one.
    pub(crate) fn first_length(&self) -> Option<u32>
        ensures { (k : ℕ) → ((result ≡ Some k) ↔ IsSome (received_message k self.now)) }
    {
        match &self.stock {
            Stock::Lengths(messages) => messages.lengths.front().copied(),
            _ => None,
        }
    }

    /// The first message is taken.
    pub(crate) fn receive_message(&mut self, length: u32)
        requires { IsSome (received_message length self.old) }
        ensures { received_message length self.old ≡ Some self.new }
    {
        if let Stock::Lengths(messages) = &mut self.stock {
            let _ = messages.take_first();
        }
    }
}
