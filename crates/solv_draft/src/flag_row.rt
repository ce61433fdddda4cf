//! Flags, as C lays them out.

/// Flags, as C lays them out: what a solver may change, and what it takes into account.
#[repr(C)]
pub struct FlagRow {
    pub allow_downgrade: bool,
    pub allow_name_change: bool,
    pub allow_arch_change: bool,
    pub allow_vendor_change: bool,
    pub allow_uninstall: bool,
    pub ignore_recommended: bool,
    pub no_infarch_check: bool,
}
