//! The end of a call that takes what was given, to send it.

ghost use Rattle.std.specs.Prelude.{◌≡◌, ◌<◌, [], ◌∷◌, ◌++◌, length, ⊤, MatchOption};
ghost use Rattle.std.specs.Borrow.{sem};
ghost use denote.Follow.{follows_so};
ghost use mathlib.Core.Option.{none};
ghost use Rattle.lane.specs.Lawful.{last_of};
ghost use Rattle.callbox.specs.OutSides.{is_left};

use account::OutItem;
use lane::Lane;

/// Takes the items of a call's response, in the order in which they were given.
///
/// It alone leaves its call, for the connection's writer, which has the senders of many calls. So
/// it alone knows the number of its call's stream.
#[derive(Drop)]
pub struct Sender<L: Lane<Item = OutItem>> {
    pub(crate) rx: L::Out,
    pub(crate) id: u32,
}

impl<L: Lane<Item = OutItem>> Sender<L> {
    ghost use Rattle.callbox.specs.contracts.sender.Sender.{the_row};

    /// An end of this lane.
    pub(crate) fn new(id: u32, rx: L::Out) -> Sender<L>
        ensures rx { result.rx ≡ rx }
        ensures id { result.id ≡ id }
    {
        Sender { rx, id }
    }

    /// The number of the call's stream.
    pub fn id(&self) -> u32
        ensures { result ≡ self.now.id }
    {
        self.id
    }

    /// The next item of what was given, or nothing. It takes no memory.
    pub fn next(&mut self) -> Option<&OutItem>
        // Once the item is looked at, the end is some `n` for which this holds.
        ensures* after { sem 𝓛
            (follows_so (the_row L.row L.In.row L.Out.row L.Shut.row)
            (the_row L.row L.In.row L.Out.row L.Shut.row) self.entry.ghost_name none (λ _ _. ⊤)
            (λ n. (L.out_name n.rx ≡ L.out_name self.old.rx)
            × (n.id ≡ self.old.id) × MatchOption result
            ((L.got n.rx ≡ L.got self.old.rx) × (L.ahead self.old.rx ≡ []) × (L.ahead n.rx ≡ []))
            (λ item. (L.got n.rx ≡ L.got self.old.rx ++ item.now ∷ [])
            × (0 < length (L.ahead self.old.rx)
            → L.ahead self.old.rx ≡ item.now ∷ L.ahead n.rx)))) }
    {
        L::poll(&mut self.rx)
    }

    /// Whether the last item that was got says that the call was left. It takes no memory.
    pub fn was_left(&mut self) -> bool
        ensures left { result ≡ is_left (last_of (L.got self.old.rx)) }
        ensures name { L.out_name self.new.rx ≡ L.out_name self.old.rx }
        ensures got { L.got self.new.rx ≡ L.got self.old.rx }
        ensures ahead { L.ahead self.new.rx ≡ L.ahead self.old.rx }
        ensures id { self.new.id ≡ self.old.id }
    {
        matches!(L::polled(&mut self.rx), Some(OutItem::Left))
    }
}
