//! The laws. Each holds of every language `l`; `Ends l` is what a language owes once for them.

ghost use Rattle.std.specs.Prelude.{◌≡◌, ℕ, ◌+◌, ◌≤◌, true, List, [], Some, None, if◌then◌else◌};
ghost use Rattle.text_grammar.specs.Grammar.{Grammar, star, rule};
ghost use Rattle.text_grammar.specs.Ranks.{takes, small};
ghost use Rattle.text_grammar.specs.Language.{Language, Ends, IsShallow, one_if};
ghost use Rattle.text_grammar.specs.Derivations.{Tree, At};
ghost use Rattle.text_grammar.specs.Reading.{read};
ghost use Rattle.text_grammar.specs.Values.{kids, vals, eval, go, done, ◌&◌};
ghost use Rattle.text_grammar.specs.Place.{IsPlace, WholeAt, EndsStuck, IsPiece, PieceAt, SaysAt, front};
ghost use Rattle.text_grammar.specs.Later.{Allows, Alike, Later, AtWith, PieceWith, SaysWith, read_twice, vals_twice, next_with};

/// From one state there is at most one derivation by one grammar, and one end.
#[tactic(auto, using(crate::proofs::Sound::one_tree))]
pub fn one_tree<S, P, T, R, V>()
    ensures { (l : Language S P T R V) (t u : Tree R V) (g : Grammar P T R) (s a b : S) → At l t g s a → At l u g s b → (t ≡ u) × (a ≡ b) }
{}

/// What is read is spelled so, and what is spelled is read.
#[tactic(auto, using(crate::proofs::Bound::sound, crate::proofs::Bound::complete))]
pub fn reading<S, P, T, R, V>()
    ensures sound { (l : Language S P T R V) (g : Grammar P T R) (s : S) (x : Tree R V × S) → read l g s ≡ Some x → At l x.0 g s x.1 }
    ensures complete { (l : Language S P T R V) → Ends l → (t : Tree R V) (g : Grammar P T R) (s e : S) → IsShallow l g → At l t g s e → read l g s ≡ Some (t, e) }
{}

/// The same of the values that code reads: they are those of a derivation.
#[tactic(auto, using(crate::proofs::Rules::vals_sound, crate::proofs::Rules::vals_complete))]
pub fn values<S, P, T, R, V>()
    ensures sound { (l : Language S P T R V) (g : Grammar P T R) (s : S) (y : List V × S) → vals l g s ≡ Some y → (t : Tree R V) × At l t g s y.1 × (kids l t ≡ y.0) }
    ensures complete { (l : Language S P T R V) → Ends l → (t : Tree R V) (g : Grammar P T R) (s e : S) → IsShallow l g → At l t g s e → vals l g s ≡ Some (kids l t, e) }
{}

/// Behind a derivation no more bytes are ahead, and fewer where the grammar takes one.
#[tactic(auto, using(crate::proofs::Bound::shorter))]
pub fn shorter<S, P, T, R, V>()
    ensures { (l : Language S P T R V) → Ends l → (t : Tree R V) (g : Grammar P T R) (s e : S) → At l t g s e → l.size e + one_if (takes l.ranks g) ≤ l.size s }
{}

/// Reading goes one level of the grammar at a time: a rule is its body and what it makes of that, and a repetition is a turn and
/// the repetition again. So there is one function of code for each rule, and one loop for each repetition.
#[tactic(auto, using(crate::proofs::Rules::rule_go, crate::proofs::Rules::grammar_go, crate::proofs::Levels::star_is))]
pub fn one_level<S, P, T, R, V>()
    ensures rules { (l : Language S P T R V) → Ends l → (r : R) (s : S) → vals l (rule r) s ≡ done (l.act r) (go l.run_step l.holds (vals l) (l.body r) [] s) }
    ensures grammars { (l : Language S P T R V) → Ends l → (g : Grammar P T R) (s : S) → IsShallow l g → small l.ranks g ≡ true → vals l g s ≡ go l.run_step l.holds (vals l) g [] s }
    ensures repetitions { (l : Language S P T R V) → Ends l → (p : T) (g : Grammar P T R) (s : S) → small l.ranks (star p g) ≡ true →
        vals l (star p g) s ≡ (if l.holds p s then (eval l.run_step l.holds (vals l) g s & vals l (star p g)) else Some ([], s)) }
{}

/// A text has at most one place of a syntax error, and it has the place where `front` ends.
#[tactic(auto, using(crate::proofs::Pieces::front_place_at))]
pub fn places<S, P, T, R, V>()
    ensures one { (l : Language S P T R V) (piece : Grammar P T R) (s : S) (left : S → ℕ) (whole p q : ℕ) → IsPlace (PieceAt l piece) s left whole p → IsPlace (PieceAt l piece) s left whole q → p ≡ q }
    ensures computed { (l : Language S P T R V) → Ends l → (piece : Grammar P T R) → IsPiece l piece → (s : S) (left : S → ℕ) (whole place : ℕ) →
        place + left (front l.size (vals l piece) s) ≡ whole → IsPlace (PieceAt l piece) s left whole place }
{}

/// A text that is all pieces is one list of them, and its place is its end.
pub fn whole_texts<S, P, T, R, V>()
    ensures one { (l : Language S P T R V) (piece : Grammar P T R) (left : S → ℕ) → EndsStuck (PieceAt l piece) left → (ts us : List (Tree R V)) (s : S) →
        WholeAt (PieceAt l piece) left ts s → WholeAt (PieceAt l piece) left us s → ts ≡ us }
    ensures place { (l : Language S P T R V) (piece : Grammar P T R) (left : S → ℕ) → EndsStuck (PieceAt l piece) left → (ts : List (Tree R V)) (s : S) (whole p : ℕ) →
        WholeAt (PieceAt l piece) left ts s → IsPlace (PieceAt l piece) s left whole p → p ≡ whole }
    ensures values { (l : Language S P T R V) (piece : Grammar P T R) (left : S → ℕ) → EndsStuck (SaysAt l piece) left → (ks js : List (List V)) (s : S) →
        WholeAt (SaysAt l piece) left ks s → WholeAt (SaysAt l piece) left js s → ks ≡ js }
{}

/// `front` goes on behind each piece that reads, and ends where none does.
#[tactic(auto, using(crate::proofs::Pieces::front_more_at, crate::proofs::Pieces::front_done_at))]
pub fn fronts<S, P, T, R, V>()
    ensures more { (l : Language S P T R V) → Ends l → (piece : Grammar P T R) → IsPiece l piece → (s e : S) (k : List V) → vals l piece s ≡ Some (k, e) → front l.size (vals l piece) s ≡ front l.size (vals l piece) e }
    ensures ends { (l : Language S P T R V) → Ends l → (piece : Grammar P T R) → IsPiece l piece → (s : S) → vals l piece s ≡ None → front l.size (vals l piece) s ≡ s }
{}

/// Where one language reads all that another does, what the other reads it reads to the same end. Two that differ only
/// in what steps give to the tree have the same places of errors.
#[tactic(auto, using(crate::proofs::Twice::at_allowed, crate::proofs::Twice::read_allowed, crate::proofs::Twice::place_alike))]
pub fn allowed<S, P, T, R, V, W>()
    ensures spelled { (l : Language S P T R V) (m : Language S P T R W) → Allows l m → (t : Tree R V) (g : Grammar P T R) (s e : S) → At l t g s e → (u : Tree R W) × At m u g s e }
    ensures reads { (l : Language S P T R V) (m : Language S P T R W) → Allows l m → Ends m → (g : Grammar P T R) (s : S) (x : Tree R V × S) → IsShallow m g →
        read l g s ≡ Some x → (u : Tree R W) × (read m g s ≡ Some (u, x.1)) }
    ensures places { (l : Language S P T R V) (m : Language S P T R W) → Alike l m → (piece : Grammar P T R) (s : S) (left : S → ℕ) (whole place : ℕ) →
        IsPlace (PieceAt l piece) s left whole place → IsPlace (PieceAt m piece) s left whole place }
{}

/// Where the tree holds what only comes later in the text, as the bodies of here-documents: there is at most one
/// tree. A first reading, with nothing known of what comes, finds what comes; a second one, with that, gives the tree.
/// Where either fails, there is no tree.
#[tactic(auto, using(crate::proofs::Twice::one_tree_with, crate::proofs::Twice::twice_sound, crate::proofs::Twice::twice_complete, crate::proofs::Twice::twice_none))]
pub fn later<A, S, P, T, R, V>()
    ensures one { (l : A → Language S P T R V) (found : S → A) (none : A) → Later l none → (t u : Tree R V) (g : Grammar P T R) (s a b : S) →
        AtWith l found t g s a → AtWith l found u g s b → (t ≡ u) × (a ≡ b) }
    ensures sound { (l : A → Language S P T R V) (found : S → A) (none : A) → Later l none → (g : Grammar P T R) (s : S) (y : Tree R V × S) →
        read_twice l found none g s ≡ Some y → AtWith l found y.0 g s y.1 }
    ensures complete { (l : A → Language S P T R V) (found : S → A) (none : A) → Later l none → (t : Tree R V) (g : Grammar P T R) (s e : S) → ((a : A) → IsShallow (l a) g) →
        AtWith l found t g s e → read_twice l found none g s ≡ Some (t, e) }
    ensures fails { (l : A → Language S P T R V) (found : S → A) (none : A) → Later l none → (g : Grammar P T R) (s : S) → ((a : A) → IsShallow (l a) g) →
        read_twice l found none g s ≡ None → (t : Tree R V) (e : S) → AtWith l found t g s e → ⊥ }
{}

/// The same of the values that code reads.
#[tactic(auto, using(crate::proofs::Twice::vals_twice_sound, crate::proofs::Twice::vals_twice_complete, crate::proofs::Twice::vals_twice_none))]
pub fn later_values<A, S, P, T, R, V>()
    ensures sound { (l : A → Language S P T R V) (found : S → A) (none : A) → Later l none → (g : Grammar P T R) (s : S) (y : List V × S) →
        vals_twice l found none g s ≡ Some y → (t : Tree R V) × AtWith l found t g s y.1 × (kids (l (found y.1)) t ≡ y.0) }
    ensures complete { (l : A → Language S P T R V) (found : S → A) (none : A) → Later l none → (t : Tree R V) (g : Grammar P T R) (s e : S) → ((a : A) → IsShallow (l a) g) →
        AtWith l found t g s e → vals_twice l found none g s ≡ Some (kids (l (found e)) t, e) }
    ensures fails { (l : A → Language S P T R V) (found : S → A) (none : A) → Later l none → (g : Grammar P T R) (s : S) → ((a : A) → IsShallow (l a) g) →
        vals_twice l found none g s ≡ None → (t : Tree R V) (e : S) → AtWith l found t g s e → ⊥ }
{}

/// A text of pieces that each hold what their own end has found has at most one place, the one where `front` ends.
#[tactic(auto, using(crate::proofs::Pieces::front_place_with))]
pub fn later_places<A, S, P, T, R, V>()
    ensures one { (l : A → Language S P T R V) (found : S → A) (none : A) → Later l none → (fresh : S → S) (piece : Grammar P T R) (s : S) (left : S → ℕ) (whole p q : ℕ) →
        IsPlace (PieceWith l found fresh piece) s left whole p → IsPlace (PieceWith l found fresh piece) s left whole q → p ≡ q }
    ensures computed { (l : A → Language S P T R V) (found : S → A) (none : A) → Later l none → (fresh : S → S) → ((s : S) → (l none).size (fresh s) ≤ (l none).size s) → (piece : Grammar P T R) → ((a : A) → IsPiece (l a) piece) →
        (s : S) (left : S → ℕ) (whole place : ℕ) → place + left (front (l none).size (next_with l found none fresh piece) s) ≡ whole → IsPlace (PieceWith l found fresh piece) s left whole place }
{}

/// Such a text that is all pieces is one list of them, and its place is its end.
pub fn later_texts<A, S, P, T, R, V>()
    ensures one { (l : A → Language S P T R V) (found : S → A) (none : A) → Later l none → (fresh : S → S) (piece : Grammar P T R) (left : S → ℕ) → EndsStuck (PieceWith l found fresh piece) left → (ts us : List (Tree R V)) (s : S) →
        WholeAt (PieceWith l found fresh piece) left ts s → WholeAt (PieceWith l found fresh piece) left us s → ts ≡ us }
    ensures place { (l : A → Language S P T R V) (found : S → A) (none : A) → Later l none → (fresh : S → S) (piece : Grammar P T R) (left : S → ℕ) → EndsStuck (PieceWith l found fresh piece) left → (ts : List (Tree R V)) (s : S) (whole p : ℕ) →
        WholeAt (PieceWith l found fresh piece) left ts s → IsPlace (PieceWith l found fresh piece) s left whole p → p ≡ whole }
    ensures values { (l : A → Language S P T R V) (found : S → A) (none : A) → Later l none → (fresh : S → S) (piece : Grammar P T R) (left : S → ℕ) → EndsStuck (SaysWith l found fresh piece) left → (ks js : List (List V)) (s : S) →
        WholeAt (SaysWith l found fresh piece) left ks s → WholeAt (SaysWith l found fresh piece) left js s → ks ≡ js }
{}

/// The same two laws of such a text's front.
#[tactic(auto, using(crate::proofs::Pieces::front_more_with, crate::proofs::Pieces::front_done_with))]
pub fn later_fronts<A, S, P, T, R, V>()
    ensures more { (l : A → Language S P T R V) (found : S → A) (none : A) → Later l none → (fresh : S → S) → ((s : S) → (l none).size (fresh s) ≤ (l none).size s) → (piece : Grammar P T R) → ((a : A) → IsPiece (l a) piece) →
        (s e : S) (k : List V) → next_with l found none fresh piece s ≡ Some (k, e) → front (l none).size (next_with l found none fresh piece) s ≡ front (l none).size (next_with l found none fresh piece) e }
    ensures ends { (l : A → Language S P T R V) (found : S → A) (none : A) → Later l none → (fresh : S → S) → ((s : S) → (l none).size (fresh s) ≤ (l none).size s) → (piece : Grammar P T R) → ((a : A) → IsPiece (l a) piece) →
        (s : S) → next_with l found none fresh piece s ≡ None → front (l none).size (next_with l found none fresh piece) s ≡ s }
{}
