//! What holds of all that `jcard test` does with files.
ghost use Rattle.std.specs.Prelude.{ℕ, List, Result};
ghost use Rattle.jcard_files.specs.FileDeeds.{FileDeed};
ghost use Rattle.jcard_files.specs.declared.fault.Fault.{Fault};
ghost use Rattle.jcard_test.specs.Sources.{SparesTexts};
ghost use Rattle.jcard_test.specs.Tests.{IsTest};
ghost use Rattle.jcard_test.specs.declared.request.Asked.{Asked};

/// No file is written whose text is asked for: no file of rows, no file that one includes, and no platform table.
pub fn no_text_is_written_over()
    ensures { (names : List (List ℕ)) (a : Asked) (ended : Result Unit Fault) (text : List ℕ)
        (deeds : List FileDeed) → IsTest names a ended text deeds → SparesTexts deeds }
{}
