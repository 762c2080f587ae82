// What each move tells the seat that makes it.
ghost use Rattle.uc_lock.specs.Rule.{Draws, Looks, Gives, kept_part, new_part, joined_with, nobody};

use crate::Journaled;
use crate::view::View;
use atomic_table::{Join, Play, Split};

pub struct Draw;

impl<V: Journaled> Play<Option<V>, View<V::Key, V::Item>> for Draw {
    ghost then = { Draws };
}

pub struct Look;

impl<V: Journaled> Play<Option<V>, View<V::Key, V::Item>> for Look {
    ghost then = { Looks V.key_of V.journal_of };
}

pub struct Give;

impl<V: Journaled> Play<Option<V>, View<V::Key, V::Item>> for Give {
    ghost then = { Gives V.journal_of };
}

pub struct Part;

impl<K, I> Split<View<K, I>> for Part {
    ghost left = { kept_part };

    ghost right = { new_part };
}

pub struct Merge;

impl<K, I> Join<View<K, I>> for Merge {
    ghost both = { joined_with };

    ghost spent = { nobody };
}
