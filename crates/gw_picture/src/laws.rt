//! What holds of every picture.
ghost use Rattle.std.specs.Prelude.{◌≡◌, ◌≢◌, ◌≤◌, ◌++◌, ℕ, List, []};
ghost use Rattle.std.specs.Prelude.{◌∷◌, length, map, slice_get, Some, IsTrue};
ghost use Rattle.gw_model.specs.declared.observation.Observation.{Observation};
ghost use Rattle.gw_model.specs.declared.point.Report.{Report};
ghost use Rattle.gw_model.specs.Clocks.{Clocks};
ghost use Rattle.gw_entries.specs.declared.row.Row.{Row};
ghost use Rattle.gw_entries.specs.declared.control.Control.{Control};
ghost use Rattle.gw_map.specs.Settings.{HasSingleAddresses};
ghost use Rattle.gw_picture.specs.Log.{picture_of};
ghost use Rattle.gw_picture.specs.Loss.{losses_of, picture_after_loss, tells_loss};
ghost use Rattle.gw_picture.specs.Picture.{news_of, news_of_report, picture_after, picture_after_report};
ghost use Rattle.gw_picture.specs.Opening.{opening};
ghost use Rattle.gw_picture.specs.Rows.{IsPictureOf, ShowsImage};

/// A picture has at each row's place an observation of the row's object and without time: at first,
/// after reports of whatever points, and after the loss of an outstation.
pub fn picture_keeps_rows()
    ensures opening { (rows : List Row) → IsPictureOf rows (map opening rows) }
    ensures report { (clocks : Clocks) (rows : List Row) (picture : List Observation) (r : Report)
        → IsPictureOf rows picture → IsPictureOf rows (picture_after_report clocks rows picture r) }
    ensures reports { (clocks : Clocks) (rows : List Row) (picture : List Observation) (rs : List Report)
        → IsPictureOf rows picture → IsPictureOf rows (picture_after clocks rows picture rs) }
    ensures loss { (outstation : ℕ) (rows : List Row) (picture : List Observation)
        → IsPictureOf rows picture → IsPictureOf rows (picture_after_loss outstation rows picture) }
{}

/// A report gives one news at most, which is its image. Where it gives none, the picture stays as it is; where it
/// gives one, the picture changes at the place of its point's row alone, and shows the image there without its time.
pub fn report_changes_its_row_alone()
    ensures once { (clocks : Clocks) (rows : List Row) (picture : List Observation) (r : Report)
        → length (news_of_report clocks rows picture r) ≤ 1 }
    ensures none { (clocks : Clocks) (rows : List Row) (picture : List Observation) (r : Report)
        → IsPictureOf rows picture → news_of_report clocks rows picture r ≡ []
        → picture_after_report clocks rows picture r ≡ picture }
    ensures news { (clocks : Clocks) (rows : List Row) (picture : List Observation) (r : Report) (x : Observation)
        → IsPictureOf rows picture → news_of_report clocks rows picture r ≡ x ∷ []
        → ShowsImage clocks rows r x picture (picture_after_report clocks rows picture r) }
{}

/// The picture that is kept is that of the log of all news, whatever the log began with.
pub fn picture_of_the_log()
    ensures { (clocks : Clocks) (rows : List Row) (controls : List Control) (log : List Observation) (rs : List Report)
        → HasSingleAddresses rows controls → picture_after clocks rows (picture_of rows log) rs
        ≡ picture_of rows (log ++ news_of clocks rows (picture_of rows log) rs) }
{}

/// So it is after the loss of an outstation: the picture is that of the log with the observations of the loss.
pub fn loss_in_log()
    ensures { (outstation : ℕ) (rows : List Row) (controls : List Control) (log : List Observation)
        → HasSingleAddresses rows controls → picture_after_loss outstation rows (picture_of rows log)
        ≡ picture_of rows (log ++ losses_of outstation rows (picture_of rows log)) }
{}

/// After the loss of an outstation what is shown of its rows says so, and what is shown of other rows is what was
/// shown before. To lose it once more is no news.
pub fn loss_is_told_once()
    ensures tells { (outstation : ℕ) (rows : List Row) (picture : List Observation) (n : ℕ) (row : Row)
        (x : Observation) → slice_get rows n ≡ Some row → row.key.outstation ≡ outstation
        → slice_get (picture_after_loss outstation rows picture) n ≡ Some x → IsTrue (tells_loss x.value x.quality) }
    ensures others { (outstation : ℕ) (rows : List Row) (picture : List Observation) (n : ℕ) (row : Row)
        → slice_get rows n ≡ Some row → row.key.outstation ≢ outstation
        → slice_get (picture_after_loss outstation rows picture) n ≡ slice_get picture n }
    ensures again { (outstation : ℕ) (rows : List Row) (picture : List Observation)
        → losses_of outstation rows (picture_after_loss outstation rows picture) ≡ [] }
{}
