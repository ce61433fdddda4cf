//! What the jobs of a task say of each package.
use solv_list::Items;

/// One entry per package number, the system's included, which is false and 0.
pub struct Marks {
    /// Installed, and an update job selects it.
    pub update: Items<bool>,
    /// Installed, and a distupgrade job selects it.
    pub dup: Items<bool>,
    /// Installed, and a verify job selects it.
    pub verify: Items<bool>,
    /// A multiversion job selects it.
    pub multiversion: Items<bool>,
    /// Installed, and an allowuninstall job selects it. The flag `allow_uninstall` is no part of it.
    pub allow_uninstall: Items<bool>,
    /// An erase job selects it; once what nobody needs is cleaned, that too.
    pub erased: Items<bool>,
    /// 1 for a favoured package, -1 for a disfavoured one, 0 for all others.
    pub favour: Items<i8>,
    /// No rules are made of what it requires, since nothing can ask for it. Jobs mark none so: where the list ends, no package is.
    pub left_out: Items<bool>,
}

impl Drop for Marks {
    fn drop(self) {
        let Marks {
            update: _,
            dup: _,
            verify: _,
            multiversion: _,
            allow_uninstall: _,
            erased: _,
            favour: _,
            left_out: _,
        } = self;
    }
}
