// The roles of process 0 of a partition.

/// What process 0 of a partition is, as far as a picture shows it.
#[derive(Clone, Copy, Debug, PartialEq, Eq)]
pub(crate) enum Role {
    /// It initialises the partition, which is not in NORMAL.
    Initialising,
    /// It handles the errors of the partition, which is in NORMAL.
    Handler,
    /// First the one and then the other.
    Either,
}

impl Role {
    // The role in a mode.
    pub(crate) fn of(is_normal: bool) -> Role {
        if is_normal {
            Role::Handler
        } else {
            Role::Initialising
        }
    }

    // This role, and then another one.
    pub(crate) fn then(self, other: Role) -> Role {
        if self == other { self } else { Role::Either }
    }

    // The label of the lane of a process of this role.
    pub(crate) fn label(self) -> &'static str {
        match self {
            Role::Initialising => "0, initialising process",
            Role::Handler => "0, error handler",
            Role::Either => "0, initialising process or error handler",
        }
    }
}
