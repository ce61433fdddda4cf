ghost use Rattle.std.specs.Prelude.{◌≡◌, ◌==◌, [], ◌∷◌, ◌++◌, length, OnOk, OnErr};
ghost use Rattle.std.specs.List.{AllZip};
ghost use Rattle.std.specs.Cmp.Lexicographic.{pointwise, lists_per, lists_equiv};

use std::alloc::AllocError;
use std::marker::Model;

/// A list of values in a public record. Two are equal where their values are, one by one.
#[derive(Drop, Debug)]
pub struct Items<T> {
    items: Vec<T>,
}

impl<T> Model for Items<T> {
    ghost use Rattle.std.specs.Prelude.{List};

    ghost Value = { List T };

    ghost view = { λ l. l.items.items };
}

impl<T> Items<T> {
    /// The list of these values. It takes no memory.
    pub fn wrap(items: Vec<T>) -> Items<T>
        ensures { result ≡ items.items }
    {
        Items { items }
    }

    /// The values.
    pub fn held(&self) -> &[T]
        ensures { result.now ≡ self.now }
    {
        self.items.as_slice()
    }

    /// Gives the values back. It takes no memory.
    pub fn into_vec(self) -> Vec<T>
        ensures { result.items ≡ self }
    {
        self.items
    }

    /// How many values there are.
    pub fn len(&self) -> usize
        ensures { result ≡ length self.now }
    {
        self.held().len()
    }

    /// Whether there is no value.
    pub fn is_empty(&self) -> bool
        ensures { result ≡ (length self.now == 0) }
    {
        self.held().is_empty()
    }
}

impl<T: Drop> Items<T> {
    /// Puts a value at the end.
    pub fn push(&mut self, item: T) -> Result<(), AllocError>
        ensures ok { OnOk result (self.new ≡ self.old ++ item ∷ []) }
        ensures err { OnErr result (self.new ≡ self.old) }
    {
        self.items.push(item)?;
        Ok(())
    }
}

impl<T: Clone> Clone for Items<T> {
    ghost is_clone = { λ l m. AllZip T.is_clone l m };

    fn clone(&self) -> Result<Items<T>, AllocError> {
        Ok(Items::wrap(self.items.clone()?))
    }
}

impl<T: PartialEq> PartialEq for Items<T> {
    ghost eq = { λ a b. pointwise T.eq a b };

    ghost laws = { lists_per T.laws };

    fn eq(&self, other: &Items<T>) -> bool {
        self.held() == other.held()
    }
}

impl<T: Eq> Eq for Items<T> {
    ghost laws = { lists_equiv T.Eq.laws };
}
