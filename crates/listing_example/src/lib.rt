#![tactic(auto)]

// Document 01's example of the listing, as specs/Listing.antt states it. No functions of its own: it is about the definition that the
// contract of `listing_printed::print` uses.
