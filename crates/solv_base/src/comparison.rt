/// Which of the three outcomes a comparison allows.
///
/// `<` is less alone, `<=` less and equal, `=` equal alone, `>=` greater and equal, `>` greater alone, `<>` less and greater.
#[derive(Clone, Copy, PartialEq, Eq, Hash, Debug)]
pub struct Cmp {
    pub less: bool,
    pub equal: bool,
    pub greater: bool,
}
