//! Laws that compute facts of sources.
ghost use Rattle.std.specs.Prelude.{◌≡◌, codes};
ghost use Rattle.load_source.specs.LoadSource.{facts};

/// The numbers that are drawn from the seeds 0 and 1, and from the largest one.
pub fn numbers_are_drawn_from_a_seed()
    ensures one { facts 4 1 1 ≡ codes "v(1,838).\nv(2,758).\nv(3,113).\nv(4,515).\n" }
    ensures zero { facts 1 1 0 ≡ codes "v(1,0).\n" }
    ensures largest { facts 2 1 2147483647 ≡ codes "v(1,929).\nv(2,409).\n" }
{}
