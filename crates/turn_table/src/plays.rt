//! What the pass that makes an atomic step learns from it. Only proofs need these types.
ghost use Rattle.turn_table.specs.Views.{after_split, newborn, after_join, spent};
ghost use Rattle.turn_table.specs.Steps.{Tries, LetsGo, Reads};

use crate::kept::Kept;
use crate::views::View;
use atomic_table::{Join, Play, Split};
use std::marker::PhantomData;

pub(crate) struct Claim<T> {
    marker: PhantomData<T>,
}

impl<T: Kept> Play<Option<T>, View<T, T::Entry>> for Claim<T> {
    ghost then = { Tries T.entries T.name T.signature };
}

pub(crate) struct LetGo<T> {
    marker: PhantomData<T>,
}

impl<T: Kept> Play<Option<T>, View<T, T::Entry>> for LetGo<T> {
    ghost then = { λ _ before _ after. LetsGo T.entries before after };
}

pub(crate) struct Read<T> {
    marker: PhantomData<T>,
}

impl<T: Kept> Play<Option<T>, View<T, T::Entry>> for Read<T> {
    ghost then = { λ _ before _ after. Reads before after };
}

pub(crate) struct Part;

impl<T, E> Split<View<T, E>> for Part {
    ghost left = { after_split };

    ghost right = { newborn };
}

impl<T, E> Join<View<T, E>> for Part {
    ghost both = { after_join };

    ghost spent = { spent };
}
