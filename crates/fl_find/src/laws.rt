// Laws on the points of a table.
ghost use Rattle.fl_model.specs.Record.{Plan};
ghost use Rattle.fl_model.specs.Table.{Table};
ghost use Rattle.fl_find.specs.Laws.{MountsHavePoints, SealsComeFurther, SealsKeepPoints};

/// The points of a table are those of its kept pages with rows, after those of pages that were given up since: so
/// they are after a mount, and each seal keeps it so.
pub fn points_go_with_pages()
    ensures mounts { (plan : Plan) → (table : Table) → MountsHavePoints plan table }
    ensures further { (plan : Plan) → (table : Table) → SealsComeFurther plan table }
    ensures seals { (plan : Plan) → (table : Table) → SealsKeepPoints plan table }
{}
