//! Places.

ghost use Rattle.std.specs.Prelude.{◌≡◌};
ghost use Rattle.audit_places.specs.Places.{place_value};

use crate::form::Form;
use std::alloc::{Allocator, Global};
use std::marker::Model;

/// The place of a finding. Contracts see it as its form with lists.
#[derive(Drop)]
pub struct Place<A: Allocator = Global> {
    form: Form<A>,
}

impl<A: Allocator> Model for Place<A> {
    ghost use Rattle.audit_places.specs.Places.{PlaceValue, place_value as value_of_form};

    ghost Value = { PlaceValue };

    ghost view = { λ p. value_of_form p.form };
}

impl<A: Allocator> Place<A> {
    /// The place of a form.
    pub fn of(form: Form<A>) -> Place<A>
        ensures { result ≡ place_value form }
    {
        Place { form }
    }

    /// Its form.
    pub fn form(&self) -> &Form<A>
        ensures { place_value result.now ≡ self.now }
    {
        &self.form
    }
}
