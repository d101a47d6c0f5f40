//! The rule of what is published: readers that enter see lists that only grow.

use crate::edition::Edition;
use crate::law::{Naming, Version};
use crossbeam_utils::rule::{Outcome, Protocol};
use std::marker::PhantomData;

/// What a reader, or the writer, has seen of the list. A clause reads an array as a list of any length.
pub type Known = [Version; 0];

/// What is published is an edition of the book, and each list that was seen begins its list.
pub struct Published<J: Naming> {
    of: PhantomData<J>,
}

impl<J: Naming> Protocol<Edition, Known> for Published<J> {
    ghost use Rattle.std.specs.Prelude.{[]};
    ghost use Rattle.filing_publish.specs.Rules.{IsPublished};

    ghost holds = { IsPublished J.book };

    ghost first = { [] };
}

/// What entering and publishing report.
pub struct Looks<J: Naming> {
    of: PhantomData<J>,
}

impl<J: Naming> Outcome<Edition, Known> for Looks<J> {
    ghost use Rattle.filing_publish.specs.Rules.{Sees};

    ghost then = { Sees J.book };
}
