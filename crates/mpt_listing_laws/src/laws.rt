//! Laws of the definitions of listings. Each is the contract of a function that does nothing.

ghost use Rattle.std.specs.Prelude.{◌≡◌, ◌≢◌, ◌+◌, ◌⊎◌, [], ◌∷◌, ◌++◌, ℕ, List, length};
ghost use Rattle.std.specs.List.{AllByRecursion, flat_map};
ghost use Rattle.mpt_spec.specs.declared.tables.Tables.{Tables as TablesOf};
ghost use Rattle.mpt_listing.specs.Listing.{listing_of};
ghost use Rattle.mpt_parse.specs.declared.fault.LineWhy.{LineWhy as WhyOf};
ghost use Rattle.mpt_parse.specs.declared.fault.LineWhy.TheVariants as why;
ghost use Rattle.mpt_parse.specs.Listings.{lines_of, HasRightValues, IsListing, IsListingOf, IsFirstBadLine, IsWholeLine};

/// The lines of a listing, end to end, are its text; each ends in a line feed, its only one.
pub fn lines_make_the_listing()
    ensures text { (t : TablesOf) → flat_map (λ l. l) (lines_of t) ≡ listing_of t }
    ensures lines { (t : TablesOf) → AllByRecursion IsWholeLine (lines_of t) }
{}

/// A text is the listing of one set of tables at most.
pub fn listing_is_one()
    ensures { (t u : TablesOf) (text : List ℕ) → IsListingOf t text → IsListingOf u text → t ≡ u }
{}

/// A text has one first bad line at most, and a listing has none.
pub fn first_bad_line_is_one()
    ensures one { (text : List ℕ) (n m : ℕ) (w v : WhyOf) → IsFirstBadLine IsListing text n w
        → IsFirstBadLine IsListing text m v → (n ≡ m) × (w ≡ v) }
    ensures none { (t : TablesOf) (text : List ℕ) (n : ℕ) (w : WhyOf) → IsListingOf t text
        → ¬ IsFirstBadLine IsListing text n w }
{}

/// Every text is a listing or has a first bad line.
pub fn every_text_is_judged()
    ensures { (text : List ℕ) → ((t : TablesOf) × IsListingOf t text)
        ⊎ ((n : ℕ) × (w : WhyOf) × IsFirstBadLine IsListing text n w) }
{}

/// A listing that is cut behind one of its lines, but the last, ends early at the next.
pub fn listing_cut_behind_a_line_ends_early()
    ensures { (t : TablesOf) (front : List (List ℕ)) (next : List ℕ) (more : List (List ℕ))
        → HasRightValues t → lines_of t ≡ front ++ next ∷ more
        → IsFirstBadLine IsListing (flat_map (λ l. l) front) (length front + 1) why.Early }
{}

/// A listing that is cut inside a line is no listing from that line on.
pub fn listing_cut_inside_a_line_is_bad()
    ensures { (t : TablesOf) (front : List (List ℕ)) (next : List ℕ) (more : List (List ℕ))
        (begun left : List ℕ)
        → HasRightValues t → lines_of t ≡ front ++ next ∷ more
        → next ≡ begun ++ left → begun ≢ [] → left ≢ []
        → IsFirstBadLine IsListing (flat_map (λ l. l) front ++ begun) (length front + 1) why.Form }
{}

/// Bytes behind a listing are late at the line after its last.
pub fn bytes_behind_a_listing_are_late()
    ensures { (t : TablesOf) (rest : List ℕ) → HasRightValues t → rest ≢ []
        → IsFirstBadLine IsListing (listing_of t ++ rest) (length (lines_of t) + 1) why.Late }
{}
