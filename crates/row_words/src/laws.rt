//! What words and shown rows say, each the contract of a function without a body.
ghost use Rattle.std.specs.Prelude.{◌≡◌, ◌↔◌, List, None};
ghost use Rattle.compare_base.specs.declared.rows.Row.{Row as PlainRow};
ghost use Rattle.row_words.specs.Agreeing.{AreRows, Agree};
ghost use Rattle.row_words.specs.WordsOfRows.{words_of as words};

/// A place differs in nothing exactly where both policies permit each of its walks and order no two of them otherwise.
pub fn no_words_where_rows_agree()
    ensures { (rows : List PlainRow) → AreRows rows → words rows ≡ None ↔ Agree rows }
{}
