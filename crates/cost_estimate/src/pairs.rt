//! The pairs of a tenant and a kind, in a row.
ghost use Rattle.std.specs.Prelude.{◌≡◌, ◌<◌, ◌≤◌, ◌+◌, ◌*◌, length};
ghost use Rattle.fq_model.specs.declared.limits.TheConstants.{MOST_PAIRS};

use fq_model::config::Checked;

/// How many tenants and kinds there are.
#[derive(Clone, Copy)]
pub struct Pairs {
    pub tenants: u32,
    pub kinds: u32,
    ghost few: { tenants * kinds ≤ MOST_PAIRS },
}

impl Pairs {
    /// The pairs of a configuration.
    pub fn of(config: &Checked) -> Pairs
        ensures tenants { result.tenants ≡ length config.now.weights }
        ensures kinds { result.kinds ≡ config.now.kinds }
    {
        Pairs {
            tenants: config.tenants(),
            kinds: config.kinds(),
        }
    }

    /// How many pairs there are: at most 65,536.
    pub fn count(self) -> usize
        ensures value { result ≡ self.tenants * self.kinds }
        ensures few { result ≤ MOST_PAIRS }
    {
        self.tenants as usize * self.kinds as usize
    }

    /// The place of a pair: by tenant, and then by kind.
    pub fn place(self, tenant: u32, kind: u32) -> usize
        requires tenant { tenant < self.tenants }
        requires kind { kind < self.kinds }
        ensures value { result ≡ tenant * self.kinds + kind }
        ensures within { result < self.tenants * self.kinds }
    {
        tenant as usize * self.kinds as usize + kind as usize
    }
}
