// The lines that begin and end regions.
ghost use Rattle.std.specs.Prelude.{◌≡◌, ℕ, Bool, true, false, List, [], ◌∷◌, ◌++◌};
ghost use Rattle.vb_diag.specs.Broken.{IsLeastLine};
ghost use Rattle.vb_lexer.specs.Lines.{RegionBreaks};
ghost use Rattle.vb_lexer.specs.Regions.{Tracks, AreBefore};

/// The regions of a file, as far as it was read.
#[derive(Drop)]
pub struct Regions {
    // How many regions are open.
    depth: u64,
    // The line in which the outermost of these begins.
    outer: u32,
    // The first line that ends a region that isn't open.
    unopened: Option<u32>,
}

impl Regions {
    pub fn new() -> Self
        ensures { Tracks result [] }
    {
        Regions {
            depth: 0,
            outer: 0,
            unopened: None,
        }
    }

    /// A region begins in the line, which is behind those before.
    pub fn begin(&mut self, line: u32)
        ensures { (marks : List (ℕ × Bool)) → Tracks self.old marks → AreBefore marks line → Tracks self.new (marks ++ ((line, true) ∷ [])) }
    {
        if self.depth == 0 {
            self.depth = 1;
            self.outer = line;
        } else {
            self.depth = self.depth.saturating_add(1);
        }
    }

    /// A region ends in the line, which is behind those before.
    pub fn end(&mut self, line: u32)
        ensures { (marks : List (ℕ × Bool)) → Tracks self.old marks → AreBefore marks line → Tracks self.new (marks ++ ((line, false) ∷ [])) }
    {
        if self.depth > 0 {
            self.depth -= 1;
            return;
        }
        match self.unopened {
            Some(_) => {}
            None => self.unopened = Some(line),
        }
    }

    /// The first line whose region isn't closed, or that ends a region that isn't open.
    pub fn broken(&self) -> Option<u32>
        ensures { (marks : List (ℕ × Bool)) → Tracks self.now marks → IsLeastLine (RegionBreaks marks) result }
    {
        match self.unopened {
            Some(line) => Some(line),
            None if self.depth > 0 => Some(self.outer),
            None => None,
        }
    }
}
