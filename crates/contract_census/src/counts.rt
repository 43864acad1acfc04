//! What is counted of a variable.

ghost use Rattle.std.specs.Prelude.{◌≡◌};
ghost use Rattle.contract_census.specs.Counting.{more, is_never, is_once, same_function, is_home, nothing_counted, after};
ghost use Rattle.contract_census.specs.declared.counts.Event.TheVariants as event;

use cps_ir::Variable;

/// How often something is met.
#[derive(Clone, Copy)]
pub enum Times {
    Never,
    Once,
    Often,
}

impl Times {
    /// Once more.
    pub(crate) fn more(self) -> Times
        ensures { result ≡ more self }
    {
        match self {
            Times::Never => Times::Once,
            _ => Times::Often,
        }
    }

    pub fn is_never(self) -> bool
        ensures { result ≡ is_never self }
    {
        match self {
            Times::Never => true,
            _ => false,
        }
    }

    pub fn is_once(self) -> bool
        ensures { result ≡ is_once self }
    {
        match self {
            Times::Once => true,
            _ => false,
        }
    }
}

/// Where a function is bound, and how many parameters it has. The body is that of the function of this name, or of the whole.
#[derive(Clone, Copy)]
pub struct Home {
    pub within: Option<Variable>,
    pub parameters: usize,
}

/// What is counted of a variable: its uses, those outside its own body, and the calls in the body that binds it with as many arguments as it has
/// parameters. On the way its own body is open or not.
#[derive(Clone, Copy)]
pub struct Count {
    pub uses: Times,
    pub outside: Times,
    pub calls: Times,
    pub is_open: bool,
    pub home: Option<Home>,
}

/// What is met of a variable.
#[derive(Clone, Copy)]
pub enum Event {
    Used,
    /// Called in the body of this function with so many arguments.
    Called {
        within: Option<Variable>,
        atoms: usize,
    },
    /// Bound in the body of this function as one with so many parameters.
    Bound {
        within: Option<Variable>,
        parameters: usize,
    },
    Opened,
    Closed,
}

fn same_function(one: Option<Variable>, other: Option<Variable>) -> bool
    ensures { result ≡ same_function one other }
{
    match (one, other) {
        (None, None) => true,
        (Some(f), Some(g)) => f == g,
        _ => false,
    }
}

fn is_home(home: Option<Home>, within: Option<Variable>, atoms: usize) -> bool
    ensures { result ≡ is_home home within atoms }
{
    match home {
        None => false,
        Some(home) => same_function(home.within, within) && atoms == home.parameters,
    }
}

impl Count {
    /// Nothing met.
    pub(crate) fn nothing() -> Count
        ensures { result ≡ nothing_counted }
    {
        Count {
            uses: Times::Never,
            outside: Times::Never,
            calls: Times::Never,
            is_open: false,
            home: None,
        }
    }

    fn used(self) -> Count
        ensures { result ≡ after event.Used self }
    {
        let outside = if self.is_open {
            self.outside
        } else {
            self.outside.more()
        };
        Count {
            uses: self.uses.more(),
            outside,
            ..self
        }
    }

    fn called(self, within: Option<Variable>, atoms: usize) -> Count
        ensures { result ≡ after (event.Called within atoms) self }
    {
        if is_home(self.home, within, atoms) {
            Count {
                calls: self.calls.more(),
                ..self
            }
        } else {
            self
        }
    }

    /// With one more event.
    pub(crate) fn after(self, event: Event) -> Count
        ensures { result ≡ after event self }
    {
        match event {
            Event::Used => self.used(),
            Event::Called { within, atoms } => self.called(within, atoms),
            Event::Bound { within, parameters } => Count {
                home: Some(Home { within, parameters }),
                ..self
            },
            Event::Opened => Count {
                is_open: true,
                ..self
            },
            Event::Closed => Count {
                is_open: false,
                ..self
            },
        }
    }
}
