//! Laws of manifests in a table, each the contract of a function that does nothing.
ghost use Rattle.std.specs.Prelude.{◌≡◌, ◌<◌, ◌++◌, ℕ, true, List, length, Some, Ok, Err};
ghost use Rattle.byte_fields.specs.Bytes.{Id};
ghost use Rattle.changeset_model.specs.Path.{Path};
ghost use Rattle.history_model.specs.History.{Entry, Known, known};
ghost use Rattle.history_model.specs.Journal.{Header};
ghost use Rattle.reply_model.specs.After.{Answers, Derives, nothing};
ghost use Rattle.reply_model.specs.After as after;
ghost use Rattle.reply_model.specs.Reply.{Absent, SeenBytes, SeenIds, seen_deleted, seen_fsnode, seen_unode, seen_history, seen_path_log};
ghost use Rattle.node_table.specs.Table.{Table, is_settled};
ghost use Rattle.node_table.specs.declared.roots.Roots.{Roots};
ghost use Rattle.changeset_store.specs.Store.{number_in};
ghost use Rattle.changeset_store.specs.Pasts.{past_at};
ghost use Rattle.merge_laws.specs.Resolved.{AreAllApart};
ghost use Rattle.derive_step.specs.Pasts.{roots_of};
ghost use Rattle.manifest_store.specs.Jobs.{is_ready};
ghost use Rattle.manifest_store.specs.Lines.{IsStore};
ghost use Rattle.manifest_store.specs.Manifests.{AreManifests, AreRight};
ghost use Rattle.manifest_store.specs.Reads.{deleted_by, fsnode_by, unode_by, history_by, path_log_by};

/// Where more changesets become known, those before keep their pasts, so that their jobs and manifests stay right.
pub fn manifests_stay_where_more_is_known()
    ensures pasts { (ks more : List Known) (n : ℕ) → IsStore ks → IsStore (ks ++ more) → n < length ks → past_at (ks ++ more) n ≡ past_at ks n }
    ensures manifests { (ks more : List Known) (t : Table) → IsStore (ks ++ more) → AreRight (ks ++ more) → AreManifests ks t → AreManifests (ks ++ more) t }
{}

/// What is read of the changesets that a history makes known is what is seen at the history.
pub fn what_is_read_is_what_is_seen()
    ensures fsnode { (h : List Entry) (x : Id) (d : Path) (bytes : List ℕ) → fsnode_by (known h) x d ≡ Ok bytes → seen_fsnode h x d ≡ Ok (SeenBytes bytes) }
    ensures no_fsnode { (h : List Entry) (x : Id) (d : Path) (absent : Absent) → fsnode_by (known h) x d ≡ Err absent → seen_fsnode h x d ≡ Err absent }
    ensures unode { (h : List Entry) (x : Id) (p : Path) (bytes : List ℕ) → unode_by (known h) x p ≡ Ok bytes → seen_unode h x p ≡ Ok (SeenBytes bytes) }
    ensures no_unode { (h : List Entry) (x : Id) (p : Path) (absent : Absent) → unode_by (known h) x p ≡ Err absent → seen_unode h x p ≡ Err absent }
    ensures deleted { (h : List Entry) (x : Id) (p : Path) (bytes : List ℕ) → deleted_by (known h) x p ≡ Ok bytes → seen_deleted h x p ≡ Ok (SeenBytes bytes) }
    ensures no_deleted { (h : List Entry) (x : Id) (p : Path) (absent : Absent) → deleted_by (known h) x p ≡ Err absent → seen_deleted h x p ≡ Err absent }
    ensures history { (h : List Entry) (x : Id) (p : Path) (ids : List Id) → history_by (known h) x p ≡ Ok ids → seen_history h x p ≡ Ok (SeenIds ids) }
    ensures no_history { (h : List Entry) (x : Id) (p : Path) (absent : Absent) → history_by (known h) x p ≡ Err absent → seen_history h x p ≡ Err absent }
    ensures path_log { (h : List Entry) (x : Id) (p : Path) (ids : List Id) → path_log_by (known h) x p ≡ Ok ids → seen_path_log h x p ≡ Ok (SeenIds ids) }
    ensures no_path_log { (h : List Entry) (x : Id) (p : Path) (absent : Absent) → path_log_by (known h) x p ≡ Err absent → seen_path_log h x p ≡ Err absent }
{}

/// The root nodes of a known changeset answer the request to derive its manifests.
pub fn roots_are_what_is_answered()
    ensures { (header : Header) (h : List Entry) (x : Id) (n : ℕ) (roots : Roots) → number_in (known h) x ≡ Some n → Some roots ≡ roots_of (past_at (known h) n) → Answers header h (Derives x) (after.Roots roots.fsnode roots.unode roots.deleted) nothing }
{}

/// In a table no two nodes stand under one id. So different nodes of settled changesets have different ids, and those that a changeset's parents have at one directory, where both parents are settled.
pub fn settled_nodes_are_apart()
    ensures settled { (ks : List Known) (t : Table) (n : ℕ) → AreManifests ks t → is_settled t n ≡ true → AreAllApart (past_at ks n) }
    ensures ready { (ks : List Known) (t : Table) (n : ℕ) → AreManifests ks t → n < length ks → is_ready ks t n ≡ true → AreAllApart (past_at ks n) }
{}
