//! What the answers of `read_maps` mean.
ghost use Rattle.std.specs.Prelude.{◌≡◌, ◌<◌, ◌+◌, ◌∷◌, ◌++◌, ℕ, List, Ok, Err, length};
ghost use Rattle.route_maps.specs.Maps.{PlainMaps};
ghost use Rattle.route_map_text.specs.MapsSpelled.{Spells};
ghost use Rattle.map_reader.specs.FirstFault.{IsFirstFault};
ghost use Rattle.map_reader.specs.MapsReading.{opening};
ghost use Rattle.map_reader.specs.MapsRead.{with_line, with_lines, spelled};
ghost use Rattle.config_reader.specs.declared.fault.ConfigFault.{ConfigFault};
ghost use Rattle.map_reader.specs.declared.reading.MapsReading.{MapsReading};

/// A text is read as maps exactly where it is the text of those maps, which keep the rules of maps. So maps have one
/// text and a text one value of maps, and what is printed is read again.
pub fn texts_are_read()
    ensures only { (bytes : List ℕ) (m : PlainMaps) → length bytes < 4294967295 → spelled bytes ≡ Ok m → Spells bytes m }
    ensures all { (bytes : List ℕ) (m : PlainMaps) → length bytes < 4294967295 → Spells bytes m → spelled bytes ≡ Ok m }
{}

/// Of the lines behind the first one, a fault is told exactly where it is the first: the lines before it are taken,
/// and the line of the fault can't follow them, whatever comes behind it.
pub fn first_fault_of_a_text()
    ensures only { (texts : List (List ℕ)) (e : ConfigFault) → with_lines 2 opening texts ≡ Err e → IsFirstFault texts e }
    ensures all { (taken more : List (List ℕ)) (line : List ℕ) (r : MapsReading) (e : ConfigFault) → with_lines 2 opening taken ≡ Ok r
        → with_line (length taken + 2) r line ≡ Err e → with_lines 2 opening (taken ++ line ∷ more) ≡ Err e }
{}
