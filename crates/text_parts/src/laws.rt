//! What the texts of numbers and prefixes say to those who read them.
ghost use Rattle.std.specs.Prelude.{◌≡◌, ◌<◌, ◌^◌, ◌++◌, ℕ, List, Ok, true};
ghost use Rattle.std.specs.Fmt.{decimal};
ghost use Rattle.net_base.specs.Addresses.{is_figure};
ghost use Rattle.net_base.specs.Prefixes.{PlainPrefix, PlainPattern, IsPrefix, IsPattern};
ghost use Rattle.net_base.specs.PrefixText.{prefix_spelled};
ghost use Rattle.text_parts.specs.Ends.{stops, ends_pattern};
ghost use Rattle.text_parts.specs.Texts.{address_text, prefix_text, pattern_text};

/// The text of a prefix spells that prefix.
pub fn prefixes_are_read_again()
    ensures { (p : PlainPrefix) → IsPrefix p → prefix_spelled (prefix_text p) ≡ Ok p }
{}

/// What stands at the front of a text is cut off in one way only, where what follows can't go on with it: two texts
/// that agree as wholes agree in that part, and in what follows.
pub fn texts_are_cut_one_way()
    ensures numbers { (m n : ℕ) (rest more : List ℕ) → m < 2 ^ 64 → n < 2 ^ 64 → stops is_figure rest ≡ true → stops is_figure more ≡ true
        → decimal m ++ rest ≡ decimal n ++ more → (m ≡ n) × (rest ≡ more) }
    ensures addresses { (m n : ℕ) (rest more : List ℕ) → m < 2 ^ 32 → n < 2 ^ 32 → stops is_figure rest ≡ true → stops is_figure more ≡ true
        → address_text m ++ rest ≡ address_text n ++ more → (m ≡ n) × (rest ≡ more) }
    ensures prefixes { (p q : PlainPrefix) (rest more : List ℕ) → IsPrefix p → IsPrefix q → stops is_figure rest ≡ true → stops is_figure more ≡ true
        → prefix_text p ++ rest ≡ prefix_text q ++ more → (p ≡ q) × (rest ≡ more) }
    ensures patterns { (t u : PlainPattern) (rest more : List ℕ) → IsPattern t → IsPattern u → ends_pattern rest ≡ true → ends_pattern more ≡ true
        → pattern_text t ++ rest ≡ pattern_text u ++ more → (t ≡ u) × (rest ≡ more) }
{}
