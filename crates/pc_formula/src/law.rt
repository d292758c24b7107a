// Laws of the grammar.
ghost use Rattle.std.specs.Prelude.{◌≡◌, ◌<◌, ◌≤◌, ℕ, ℤ, Bool, List, length};
ghost use Rattle.pc_name.specs.Names.{most_name_bytes};
ghost use Rattle.pc_formula.specs.Word.{Word, HasWords, HasShortNames, nesting};
ghost use Rattle.pc_formula.specs.Tree.{Value, Cell, Formula};
ghost use Rattle.pc_formula.specs.Front.{StopsLevel};
ghost use Rattle.pc_formula.specs.Value.{DerivesName, DerivesNumber, DerivesInt, DerivesValue, InParentheses, Arguments, DerivesCell};
ghost use Rattle.pc_formula.specs.Equation.{equality, IsEquation};
ghost use Rattle.pc_formula.specs.Grammar.{IsFormula};
ghost use Rattle.pc_formula.specs.Sized.{IsSized, too_many};
ghost use Rattle.pc_formula.specs.Nesting.{nesting_of};

/// Words are at most one formula, which nests no deeper than they do, and which has not too many parts where the words
/// are within the limit. A line has no more words than bytes, and where it is no longer than a name may be, so is each
/// name in it.
pub fn one_formula()
    ensures once { (ws : List Word) (f g : Formula) → IsFormula ws f → IsFormula ws g → f ≡ g }
    ensures nested { (ws : List Word) (f : Formula) → IsFormula ws f → nesting_of f ≤ nesting ws }
    ensures sized { (ws : List Word) (f : Formula) → IsFormula ws f → length ws < too_many →
        IsSized f }
    ensures words { (line : List ℕ) (ws : List Word) → HasWords line ws → length ws ≤ length line }
    ensures short { (line : List ℕ) (ws : List Word) → HasWords line ws →
        length line ≤ most_name_bytes → HasShortNames ws }
{}

/// Words start with at most one number, integer, value and list of names or values in parentheses, and with at most one
/// cell and optional list that no parenthesis follows. They are at most one equation, with one sign.
pub fn one_value()
    ensures number { (ws : List Word) (m n : ℕ) (r s : List Word) → DerivesNumber ws m r →
        DerivesNumber ws n s → (m ≡ n) × (r ≡ s) }
    ensures integer { (ws : List Word) (y z : ℤ) (r s : List Word) → DerivesInt ws y r →
        DerivesInt ws z s → (y ≡ z) × (r ≡ s) }
    ensures value { (ws : List Word) (v w : Value) (r s : List Word) → DerivesValue ws v r →
        DerivesValue ws w s → (v ≡ w) × (r ≡ s) }
    ensures names { (ws : List Word) (a b : List (List ℕ)) (r s : List Word) →
        InParentheses DerivesName ws a r → InParentheses DerivesName ws b s → (a ≡ b) × (r ≡ s) }
    ensures values { (ws : List Word) (a b : List Value) (r s : List Word) →
        InParentheses DerivesValue ws a r → InParentheses DerivesValue ws b s → (a ≡ b) × (r ≡ s) }
    ensures arguments { (ws : List Word) (a b : List (List ℕ)) (r s : List Word) →
        Arguments DerivesName ws a r → Arguments DerivesName ws b s → StopsLevel 1 r →
        StopsLevel 1 s → (a ≡ b) × (r ≡ s) }
    ensures cell { (ws : List Word) (c d : Cell) (r s : List Word) → DerivesCell ws c r →
        DerivesCell ws d s → StopsLevel 1 r → StopsLevel 1 s → (c ≡ d) × (r ≡ s) }
    ensures equation { (ws : List Word) (c d : Cell) (v w : Value) (g h : Bool) →
        IsEquation ws (equality g) c v → IsEquation ws (equality h) d w → (c ≡ d) × (v ≡ w) ×
        (g ≡ h) }
{}
