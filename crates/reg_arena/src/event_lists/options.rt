//! A number or an event that may be missing, in 32 bits; an `Option` of either takes 64.
ghost use Rattle.std.specs.Prelude.{◌≡◌, ◌<◌, IfSome};
ghost use Rattle.reg_arena.specs.declared.event_lists.options.TheConstants.{NO_NUMBER};

use history_model::EvId;
use std::marker::Model;

/// What stands for a number that is missing: no number has this value.
const NO_NUMBER: u32 = 4_294_967_295;

/// A number, if there is one. Contracts see it as that.
#[derive(Clone, Copy)]
pub(crate) struct OptionalNumber {
    word: u32,
}

impl Model for OptionalNumber {
    ghost use Rattle.std.specs.Prelude.{ℕ, Option};
    ghost use Rattle.reg_arena.specs.Lists.Options.{number_of, word_of, word_of-number_of};

    ghost Value = { Option ℕ };

    ghost view = { λ n. number_of n.word };

    ghost inverse = { λ o. record { word = word_of o } };

    ghost inverse_ok = { λ n h i. record { word = word_of-number_of n.word i } };
}

impl OptionalNumber {
    /// This number, or none.
    pub(crate) fn new(number: Option<u32>) -> Self
        requires { IfSome number (λ n. n < NO_NUMBER) }
        ensures { result ≡ number }
    {
        match number {
            Some(word) => OptionalNumber { word },
            None => OptionalNumber { word: NO_NUMBER },
        }
    }

    /// The number, if there is one.
    pub(crate) fn get(self) -> Option<u32>
        ensures { result ≡ self }
    {
        if self.word == NO_NUMBER {
            None
        } else {
            Some(self.word)
        }
    }
}

/// An event, if there is one. Contracts see it as that.
#[derive(Clone, Copy)]
pub(crate) struct OptionalEvent {
    number: OptionalNumber,
}

impl Model for OptionalEvent {
    ghost use Rattle.std.specs.Prelude.{Option};
    ghost use Rattle.history_model.specs.declared.ids.EvId.{EvId as AnEvId};
    ghost use Rattle.reg_arena.specs.Lists.Options.{as_event, as_number, as_number-as_event};

    ghost Value = { Option AnEvId };

    ghost view = { λ e. as_event e.number };

    ghost inverse = { λ o. record { number = as_number o } };

    ghost inverse_ok = { λ e h i. record { number = as_number-as_event e.number i } };
}

impl OptionalEvent {
    /// This event, or none.
    pub(crate) fn new(event: Option<EvId>) -> Self
        requires { IfSome event (λ id. id.0 < NO_NUMBER) }
        ensures { result ≡ event }
    {
        OptionalEvent {
            number: OptionalNumber::new(event.map(|id| id.0)),
        }
    }

    /// The event, if there is one.
    pub(crate) fn get(self) -> Option<EvId>
        ensures { result ≡ self }
    {
        self.number.get().map(EvId)
    }
}
