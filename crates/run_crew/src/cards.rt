//! What a run knows of the two cards.
ghost use Rattle.std.specs.Prelude.{◌≡◌, Some, None};
ghost use Rattle.run_crew.specs.Cards.{known_of, session_of, with_session, with_number, with_sizes, accepted_number};

use card_layout::Application;
use card_session::CardSession;
use hand_model::Held;
use tacho_types::FullCardNumber;
use trace_model::Card;

/// An accepted card: its session, and the unit's entry that tells of its insertion.
#[derive(Drop)]
pub struct Accepted {
    pub session: CardSession,
    /// The entries by hand that the session holds until it keeps its first minute.
    pub held: Held,
    /// The index of the entry in the unit's ring of insertions.
    pub entry: u32,
    /// How many insertions were noted in the run when that one was.
    pub noted: u64,
}

/// One of the two cards: what it has told, and how it stands.
#[derive(Drop)]
pub struct Known {
    /// The sizes that it told last, or the number of the first bad field of Application_Identification.
    pub sizes: Result<Application, u8>,
    /// The card number that it told last, if it was valid.
    pub number: Option<FullCardNumber>,
    /// The row of the unit that was begun for it last: what is owed to it stands there, also where it was torn out
    /// since.
    pub row: u32,
    /// Its session, from its acceptance until it leaves its slot or power is lost.
    pub accepted: Option<Accepted>,
}

/// Both cards.
#[derive(Drop)]
pub struct Cards {
    pub a: Known,
    pub b: Known,
}

/// The card numbers of the accepted cards in the slots.
#[derive(Clone, Copy, Debug, Default, PartialEq, Eq)]
pub struct Crew {
    pub driver: Option<FullCardNumber>,
    pub codriver: Option<FullCardNumber>,
}

impl Known {
    /// Its number, while it is accepted.
    pub fn accepted_number(&self) -> Option<FullCardNumber>
        ensures { result ≡ accepted_number self.now }
    {
        if self.accepted.is_some() {
            self.number
        } else {
            None
        }
    }
}

impl Cards {
    /// What is known of a card.
    pub fn of(&self, card: Card) -> &Known
        ensures { result.now ≡ known_of self.now card }
    {
        match card {
            Card::A => &self.a,
            Card::B => &self.b,
        }
    }

    /// The session of a card, which it has no more.
    pub fn take(&mut self, card: Card) -> Option<Accepted>
        ensures taken { result ≡ session_of self.old card }
        ensures left { self.new ≡ with_session card None self.old }
    {
        match card {
            Card::A => self.a.accepted.take(),
            Card::B => self.b.accepted.take(),
        }
    }

    /// A card has this session from now on, or none.
    pub fn set_session(&mut self, card: Card, session: Option<Accepted>)
        ensures { self.new ≡ with_session card session self.old }
    {
        match card {
            Card::A => self.a.accepted = session,
            Card::B => self.b.accepted = session,
        }
    }

    /// A card has told these sizes, or a bad field in their place.
    pub fn measure(&mut self, card: Card, sizes: Result<Application, u8>)
        ensures { self.new ≡ with_sizes card sizes self.old }
    {
        match card {
            Card::A => self.a.sizes = sizes,
            Card::B => self.b.sizes = sizes,
        }
    }

    /// A card has told this number, and this row of the unit is begun for it.
    pub fn name(&mut self, card: Card, number: FullCardNumber, row: u32)
        ensures { self.new ≡ with_number card number row self.old }
    {
        match card {
            Card::A => {
                self.a.number = Some(number);
                self.a.row = row;
            }
            Card::B => {
                self.b.number = Some(number);
                self.b.row = row;
            }
        }
    }
}
