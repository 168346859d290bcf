//! What holds of all runs.

ghost use Rattle.std.specs.Prelude.{◌≡◌, ◌≢◌, ◌↔◌, ◌∷◌, [], ℕ, Bool, true, List, Option, Some};
ghost use Rattle.std.specs.List.{list_any};
ghost use Rattle.std.specs.FinMap.{is_sorted};
ghost use Rattle.span_text.specs.KnownNames.{is_among};
ghost use Rattle.shell_world.specs.declared.world.World.{World};
ghost use Rattle.shell_world.specs.declared.world.Row.{Row};
ghost use Rattle.shell_world.specs.Texts.{Text, Map, text_cmp, nth, with_nth};
ghost use Rattle.shell_world.specs.Outside.{Desc, Outside, Trace, Fds, desc_at, unread, written_at, drained_at};
ghost use Rattle.shell_world.specs.Calls.{called_by};
ghost use Rattle.shell_world.specs.World.{IsGood, IsPath, IsFolderOf, start_outside, start_fds, no_trace};
ghost use Rattle.shell_world.specs.Paths.{names_path, path_text, is_folder_of, folders_of, names_from, names_of};
ghost use Rattle.shell_world.specs.Lines.{line_read_at};
ghost use Rattle.shell_world.specs.Opening.{IfOpens, with_desc, read_opened, write_opened, text_opened, buffer_opened, taken_at};
ghost use Rattle.shell_world.specs.Files.{IsSound};
ghost use Rattle.shell_world.specs.Alike.{Matching, AreMatched, Alike, AlikeFds, Keeps, CalledAlike, OpenedAlike, start_matching};

/// What a text names is a path, and the test of folders tells what a folder is.
pub fn texts_name_paths()
    ensures path { (text : Text) → names_path text ≡ true → IsPath (path_text text) }
    ensures folder { (folder path : Text) → folder ≢ [] → (is_folder_of folder path ≡ true) ↔ IsFolderOf folder path }
{}

/// The folders that are listed are those of the path. The names are the paths and their folders, and nothing else, and
/// they rise strictly by their bytes, so that each stands once.
pub fn names_are_told()
    ensures folders { (path text : Text) → (is_among (folders_of path) text ≡ true) ↔ IsFolderOf text path }
    ensures names { (files : Map Text) (text : Text) → is_among (names_of files) text ≡ list_any (λ f. is_among (f.0 ∷ folders_of f.0) text) files }
    ensures order { (files : Map Text) → is_sorted text_cmp (names_from files []) ≡ true }
{}

/// The files of a run in a good world are a map of files throughout: each key is a path, none stands twice, and none
/// is a folder of another.
pub fn files_stay_apart()
    ensures start { (world : World) → IsGood world → IsSound (start_outside world) }
    ensures read { (text : Text) (o : Outside) → IsSound o → IfOpens IsSound (read_opened text o) }
    ensures write { (append : Bool) (text : Text) (o : Outside) → IsSound o → IfOpens IsSound (write_opened append text o) }
    ensures text { (text : Text) (o : Outside) → IsSound o → IfOpens IsSound (text_opened text o) }
    ensures buffer { (o : Outside) → IsSound o → IfOpens IsSound (buffer_opened o) }
    ensures written { (i : Option ℕ) (piece : Text) (x : Trace × Outside) → IsSound x.1 → IsSound (written_at i piece x).1 }
    ensures line { (i : Option ℕ) (o : Outside) → IsSound o → IsSound (line_read_at i o) }
    ensures taken { (i : Option ℕ) (o : Outside) → IsSound o → IsSound (taken_at i o) }
    ensures called { (rows : List Row) (argv : List Text) (env : List (Text × Text)) (fds : Fds) (t : Trace) (o : Outside) → IsSound o → IsSound (called_by rows argv env fds t o).outside }
{}

/// Outsides and descriptors that count as equal stay so, whatever is done through matched descriptions. What both open
/// is matched then, and what one alone opens needn't be.
pub fn outsides_stay_alike()
    ensures start { (world : World) → Alike start_matching (no_trace, start_outside world) (no_trace, start_outside world) }
    ensures start_fds { AlikeFds start_matching start_fds start_fds }
    ensures unread { (ms : Matching) (a b : Trace × Outside) (i j : Option ℕ) → Alike ms a b → AreMatched ms i j → unread (desc_at i a.1.descs) a.1 ≡ unread (desc_at j b.1.descs) b.1 }
    ensures desc { (ms : Matching) (a b : Trace × Outside) (i j : Option ℕ) → Alike ms a b → AreMatched ms i j → desc_at i a.1.descs ≡ desc_at j b.1.descs }
    ensures written { (ms : Matching) (a b : Trace × Outside) (i j : Option ℕ) (piece : Text) → Alike ms a b → AreMatched ms i j → Alike ms (written_at i piece a) (written_at j piece b) }
    ensures line { (ms : Matching) (a b : Trace × Outside) (i j : Option ℕ) → Alike ms a b → AreMatched ms i j → Alike ms (a.0, line_read_at i a.1) (b.0, line_read_at j b.1) }
    ensures taken { (ms : Matching) (a b : Trace × Outside) (i j : Option ℕ) → Alike ms a b → AreMatched ms i j → Alike ms (a.0, taken_at i a.1) (b.0, taken_at j b.1) }
    ensures called { (ms : Matching) (a b : Trace × Outside) (fds gds : Fds) (rows : List Row) (argv : List Text) (env : List (Text × Text)) → Alike ms a b → AlikeFds ms fds gds
        → CalledAlike ms (called_by rows argv env fds a.0 a.1) (called_by rows argv env gds b.0 b.1) }
    ensures read { (ms : Matching) (a b : Trace × Outside) (text : Text) → Alike ms a b → OpenedAlike ms a.0 b.0 (read_opened text a.1) (read_opened text b.1) }
    ensures write { (ms : Matching) (a b : Trace × Outside) (append : Bool) (text : Text) → Alike ms a b → OpenedAlike ms a.0 b.0 (write_opened append text a.1) (write_opened append text b.1) }
    ensures text { (ms : Matching) (a b : Trace × Outside) (text : Text) → Alike ms a b → OpenedAlike ms a.0 b.0 (text_opened text a.1) (text_opened text b.1) }
    ensures buffer { (ms : Matching) (a b : Trace × Outside) → Alike ms a b → OpenedAlike ms a.0 b.0 (buffer_opened a.1) (buffer_opened b.1) }
    ensures alone { (ms : Matching) (a b : Trace × Outside) (d : Desc) → Alike ms a b → Alike ms a (b.0, with_desc d b.1) }
    ensures fds { (ms ns : Matching) (fds gds : Fds) → Keeps ms ns → AlikeFds ms fds gds → AlikeFds ns fds gds }
    ensures set { (ms : Matching) (fds gds : Fds) (n : ℕ) (i j e f : Option ℕ) → nth n fds ≡ Some e → nth n gds ≡ Some f → AreMatched ms i j → AlikeFds ms fds gds → AlikeFds ms (with_nth n i fds) (with_nth n j gds) }
{}
