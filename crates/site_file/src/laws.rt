//! Laws that check the table of the site file. They have no code: they are proved for the
//! definitions that the contract of `read_config` cites.

ghost use Rattle.site_file.specs.Laws.{AcceptsTheFitSites, TellsTheTextApart};

/// What a site file describes is a site that `SiteConfig::try_new` accepts, and each such site has
/// the tree of a site file.
pub fn accepts_the_fit_sites()
    ensures { AcceptsTheFitSites }
{}

/// 70 means only that the octets aren't UTF-8, or that TOML's grammar has no document for them. The
/// faults of a document are 71 to 76.
pub fn tells_the_text_apart()
    ensures { TellsTheTextApart }
{}
