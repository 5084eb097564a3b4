// Which names are bound: those among the words of the body's atoms, and those let so far.
ghost use Rattle.std.specs.Prelude.{◌≡◌};
ghost use Rattle.octets.specs.Words.{words};
ghost use Rattle.head_exprs.specs.Scopes.{first_scope, in_scope, may_read, is_taken, ScopeFits};

use octets::part;
use octets::regions::among;

// Names below `globals` are globals. The body's words are the first `body` of the scratch; the `names` words from `first` on are let.
#[derive(Clone, Copy)]
pub struct Scope {
    pub globals: u32,
    pub body: usize,
    pub first: usize,
    pub names: usize,
}

impl Scope {
    // The scope with which a head starts: no name is let.
    pub fn new(globals: u32, body: usize, first: usize) -> Scope
        ensures { result ≡ first_scope globals body first }
    {
        Scope {
            globals,
            body,
            first,
            names: 0,
        }
    }

    // Whether the variable w is bound.
    #[tactic(auto, unfolding(crate::specs::Scopes::in_scope))]
    fn has(self, s: &[u8], w: u32) -> bool
        requires { ScopeFits (words s.now) self }
        ensures { result ≡ in_scope (words s.now) self w }
    {
        among(part(s, 0, self.body), w) || among(part(s, self.first, self.names), w)
    }

    // Whether the leaf w may be read: a literal or a global, also after a let of it, or a bound name.
    pub fn may_read(self, s: &[u8], w: u32) -> bool
        requires { ScopeFits (words s.now) self }
        ensures { result ≡ may_read (words s.now) self w }
    {
        if w < words::NAME_BASE + self.globals {
            return true; // a literal or a global
        }
        self.has(s, w)
    }

    // Whether the name w is bound: a variable by the body or by a let, a global by a let.
    pub fn taken(self, s: &[u8], w: u32) -> bool
        requires { ScopeFits (words s.now) self }
        ensures { result ≡ is_taken (words s.now) self w }
    {
        if w < words::NAME_BASE + self.globals {
            return among(part(s, self.first, self.names), w);
        }
        self.has(s, w)
    }
}
